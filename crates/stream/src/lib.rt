// A job in a stream of tagged fields: document 01, "Job program".
#![tactic(auto)]

ghost use Rattle.std.specs.Prelude.{◌≡◌, ◌+◌, ◌<◌, ◌≤◌, Some, length, get_or, take};
ghost use Rattle.verdict.specs.Verdict.{clear};
ghost use Rattle.verdict.specs.Answer.{answer_of};
ghost use Rattle.window.specs.Shape.{sites_of};
ghost use Rattle.raw.specs.Unpack.{unpack_verdict};
ghost use Rattle.stream.specs.Fields.{word_at, field, past, body_at, field_at, fields_at, past_all};
ghost use Rattle.stream.specs.Stream.{side_fields, body_fields, wide_sides, faults_of, unpacked, stream_verdict};
ghost use Rattle.stream.specs.Job.{figures_text, printed, job_answer, paper_of, job_paper};
ghost use Rattle.stream.specs.Walk.{directly};

use dark::Level;
use pair::PairFigures;
use std::fmt;
use verdict::Refusal;

// What the job prints: sites, variance p / q, noise r / r_over, dark dark / dark_over.
#[derive(Clone, Copy)]
pub struct JobFigures {
    pub sites: u64,
    pub p: u64,
    pub q: u64,
    pub r: u64,
    pub r_over: u64,
    pub dark: i64,
    pub dark_over: u64,
}

// The four lines that the job prints.
impl fmt::Display for JobFigures {
    ghost output = { λ f. Some (figures_text f) };

    fn fmt<W: fmt::Write>(&self, f: &mut fmt::Formatter<W>) -> fmt::Result {
        write!(f, "sites {}", self.sites)?;
        write!(f, "\nvariance {}/{}", self.p, self.q)?;
        write!(f, "\nnoise {}/{}", self.r, self.r_over)?;
        write!(f, "\ndark {}/{}", self.dark, self.dark_over)
    }
}

// The byte at i, and 0 past the end.
fn byte_at(s: &[u8], i: usize) -> u8
    ensures { result ≡ get_or s.now i 0 }
{
    s.get(i).copied().unwrap_or(0)
}

// Two bytes as a number, the high one first.
#[tactic(auto, unfolding(crate::specs::Fields::word_at))]
fn word_at(s: &[u8], i: usize) -> u16
    requires { i ≤ 65536 }
    ensures { result ≡ word_at s.now i }
{
    u16::from_be_bytes([byte_at(s, i), byte_at(s, i + 1)])
}

// The place past the field that is due at `at`, or 20, 21 or 22.
#[tactic(auto, unfolding(crate::specs::Fields::field_at))]
fn field(s: &[u8], at: usize, tag: u8, long: usize) -> Result<usize, Refusal>
    requires { (at < 65536) × (long < 65536) }
    ensures { result ≡ answer_of (field_at s.now at (field tag long)) (past at (field tag long)) }
{
    verdict::refuse_if(Refusal::Cut(at), s.len() < at + 1)?;
    verdict::refuse_if(Refusal::OtherTag(at), byte_at(s, at) != tag)?;
    verdict::refuse_if(Refusal::Cut(at), s.len() < at + 3)?;
    verdict::refuse_if(
        Refusal::OtherLength(at),
        usize::from(word_at(s, at + 1)) != long,
    )?;
    let past = at + 3 + long;
    verdict::refuse_if(Refusal::Cut(at), s.len() < past)?;
    Ok(past)
}

// The place past the sides.
#[tactic(auto, unfolding(crate::specs::Fields::fields_at, crate::specs::Fields::past_all))]
fn side_fields(s: &[u8]) -> Result<usize, Refusal>
    ensures { result ≡ answer_of (fields_at s.now 0 side_fields) (past_all 0 side_fields) }
{
    let at = field(s, 0, 1, 2)?;
    field(s, at, 2, 2)
}

// The place past the fields that follow the sides, in a stream of n sites.
#[tactic(auto, unfolding(crate::specs::Fields::fields_at, crate::specs::Fields::past_all))]
fn body_fields(s: &[u8], sides_end: usize, n: usize) -> Result<usize, Refusal>
    requires { (sides_end ≤ 10) × (n ≤ 16384) }
    ensures { result ≡ answer_of (fields_at s.now sides_end (body_fields n)) (past_all sides_end (body_fields n)) }
{
    // Each place is named by the field that begins there.
    let packed = n * 5 / 4;
    let black_level = field(s, sides_end, 3, 2)?;
    let mask = field(s, black_level, 4, 2)?;
    let first = field(s, mask, 5, n)?;
    let second = field(s, first, 6, packed)?;
    let last = field(s, second, 7, packed)?;
    field(s, last, 0, 0)
}

#[tactic(auto, unfolding(crate::specs::Stream::wide_sides))]
fn wide_sides(width: usize, height: usize) -> bool
    ensures { result ≡ wide_sides width height }
{
    64 < width || 64 < height
}

// All that is judged of the stream before the library is asked.
#[tactic(auto, unfolding(crate::specs::Stream::faults_of))]
fn judge(s: &[u8], width: usize, height: usize) -> Result<(), Refusal>
    ensures { result ≡ faults_of s.now width height }
{
    let at = side_fields(s)?;
    verdict::refuse_if(Refusal::Sides, window::bad_sides(width, height))?;
    verdict::refuse_if(Refusal::TooWide, wide_sides(width, height))?;
    let end = body_fields(s, at, window::sites(width, height))?;
    verdict::refuse_if(Refusal::Extra(end), end < s.len())
}

// Puts the frame in a body of RAW10 at the front of an array for the largest window. It is lent, since an array that is answered is copied.
fn frame_of(width: usize, height: usize, body: &[u8], frame: &mut [u16; 4096])
    requires { (sites_of width height ≤ 4096) × (unpack_verdict width height (length body.now) (sites_of width height) ≡ clear) }
    ensures { (take (sites_of width height) frame.new ≡ unpacked (sites_of width height) body.now) × (length frame.new ≡ 4096) }
{
    let n = window::sites(width, height);
    raw::unpack_raw10(width, height, body, &mut frame[..n]).unwrap();
}

// What is printed of a pair's figures and a dark level.
fn printed(pair: PairFigures, dark: Level) -> JobFigures
    requires { pair.n ≤ 16384 }
    ensures { result ≡ printed pair dark }
{
    JobFigures {
        sites: pair.n,
        p: pair.p,
        q: pair.q,
        r: pair.r,
        r_over: 64 * pair.n,
        dark: dark.numerator,
        dark_over: dark.denominator,
    }
}

// The library's calls on the frames of two bodies: pair noise, and then dark level of the first.
fn measure(
    width: usize,
    height: usize,
    full_scale: u64,
    black_level: u64,
    mask: &[u8],
    first: &[u8],
    second: &[u8],
) -> Result<JobFigures, Refusal>
    requires { (sites_of width height ≤ 4096) × (unpack_verdict width height (length first.now) (sites_of width height) ≡ clear) × (unpack_verdict width height (length second.now) (sites_of width height) ≡ clear) }
    ensures { result ≡ directly width height full_scale black_level mask.now (unpacked (sites_of width height) first.now) (unpacked (sites_of width height) second.now) }
{
    let n = window::sites(width, height);
    let mut one = [0u16; 4096];
    let mut two = [0u16; 4096];
    frame_of(width, height, first, &mut one);
    frame_of(width, height, second, &mut two);
    let pair = pair::pair_figures(width, height, full_scale, mask, &one[..n], &two[..n])?;
    let dark = dark::dark_level(width, height, full_scale, black_level, mask, &one[..n])?;
    Ok(printed(pair, dark))
}

// The body of the field at `at`.
fn body_at(s: &[u8], at: usize, long: usize) -> &[u8]
    requires { at + 3 + long ≤ length s.now }
    ensures { result.now ≡ body_at s.now at long }
{
    &s[at + 3..at + 3 + long]
}

// The job of a stream without a fault.
fn work(input: &[u8]) -> Result<JobFigures, Refusal>
    requires { stream_verdict input.now ≡ clear }
    ensures { result ≡ job_answer input.now }
{
    let width = usize::from(word_at(input, 3));
    let height = usize::from(word_at(input, 8));
    let n = window::sites(width, height);
    let packed = n * 5 / 4;
    let first = 23 + n;
    let second = first + 3 + packed;
    measure(
        width,
        height,
        u64::from(word_at(input, 13)),
        u64::from(word_at(input, 18)),
        body_at(input, 20, n),
        body_at(input, first, packed),
        body_at(input, second, packed),
    )
}

pub fn job(input: &[u8]) -> Result<JobFigures, Refusal>
    ensures answer { result ≡ job_answer input.now }
    ensures paper { paper_of result ≡ job_paper input.now }
{
    let width = usize::from(word_at(input, 3));
    let height = usize::from(word_at(input, 8));
    judge(input, width, height)?;
    work(input)
}
