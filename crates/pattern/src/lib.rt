// Pattern noise of a stack, vertical and horizontal by one walk over lines: document 01, "Pattern noise", as document 02 c amends it.
#![tactic(auto)]

ghost use Rattle.std.specs.Prelude.{◌≡◌, ℕ, ◌+◌, ◌*◌, ◌<◌, ◌≤◌, length};
ghost use Rattle.laws.specs.First.{some_to};
ghost use Rattle.laws.specs.Signed.{apart};
ghost use Rattle.laws.specs.Table.{held};
ghost use Rattle.window.specs.View.{above};
ghost use Rattle.pattern.specs.Lines.{columns, rows};
ghost use Rattle.pattern.specs.Figures.{level_of, stands_out, deviation, max_of, figures_of};
ghost use Rattle.pattern.specs.Pattern.{pattern_verdict, pattern_figures, pattern_answer, paper_of, pattern_paper};
ghost use Rattle.pattern.specs.Walk.{lined, line_of, with_row, Possible, Accepted};

use verdict::Refusal;
use window::Lines;

// Level squared and Max, each by the two numbers of its fraction, unreduced.
#[derive(Clone, Copy)]
pub struct Figures {
    pub level_numerator: u64,
    pub level_denominator: u64,
    pub max_numerator: u64,
    pub max_denominator: u64,
}

// Whether some sum is above the most that it can be, at 32 bits, which take less time than 64. Beside `some_code_above` of window, which says why they are two.
fn some_above(most: u32, sums: &[u32]) -> bool
    ensures { result ≡ some_to (length sums.now) (above most (held sums.now)) }
{
    let mut found = false;
    for sum in sums {
        found |= most < *sum;
    }
    found
}

// The line that the site in row y and column x is on.
fn line_of(lines: Lines, y: usize, x: usize) -> usize
    ensures { result ≡ line_of lines y x }
{
    match lines {
        Lines::Rows => y,
        Lines::Columns => x,
    }
}

// Refusals 1, 2, 3, 4, 5, 8, 9 and 11.
// Here and below a call's numbers and buffers go on one by one, as the definitions take them: with a struct of them no clause is plainer.
#[tactic(auto, unfolding(crate::specs::Pattern::pattern_verdict))]
fn judge(
    lines: Lines,
    width: usize,
    height: usize,
    full_scale: u64,
    frames: u64,
    mask: &[u8],
    sums: &[u32],
) -> Result<(), Refusal>
    ensures { result ≡ pattern_verdict (lined lines) width height full_scale frames mask.now sums.now }
{
    let count = verdict::refuse_if(Refusal::Parameter, window::bad_count(frames));
    let lengths = refusals::length(width, height, sums.len());
    refusals::judge_mask(width, height, full_scale, count, mask, lengths)?;
    verdict::refuse_if(Refusal::Unsurveyed, window::some_code_above(0, mask))?;
    verdict::refuse_if(Refusal::TooSmall, line_of(lines, height, width) < 12)?;
    let most = (frames * full_scale) as u32;
    verdict::refuse_if(Refusal::Impossible, some_above(most, sums))
}

// Adds row y to the totals of the lines that its sites are on.
fn add_row(lines: Lines, width: usize, y: usize, sums: &[u32], totals: &mut [u64; 128])
    requires { (width ≤ 128) × (y < 128) × (y * width + width ≤ length sums.now) × (length totals.old ≡ 128) × ((i : ℕ) → i < 128 → held totals.old i ≤ y * 549755813760) }
    ensures { totals.new ≡ with_row lines width (held sums.now) y totals.old }
{
    let start = y * width;
    // By an index: nothing is plainer where a turn writes at the place that it works out.
    for x in 0..width {
        let line = line_of(lines, y, x);
        totals[line] += u64::from(sums[start + x]);
    }
}

fn step(here: u64, next: u64) -> u64
    requires { (here ≤ 52416000) × (next ≤ 52416000) }
    ensures { (result ≡ apart here next * apart here next) × (result ≤ 2747437056000000) }
{
    let d = here.abs_diff(next);
    d * d
}

// How far ten times a total is from the sum of the ten around it: a dark line counts as a bright one does. Document 01 names the form, an i64 difference.
fn stands_out(tenfold: u64, around: u64) -> u64
    requires { (tenfold ≤ 524160000) × (around ≤ 524160000) }
    ensures { result ≡ stands_out tenfold around }
{
    exact::size(tenfold as i64 - around as i64)
}

// How far the middle one of eleven totals stands out from the five before it and the five after it.
fn deviation_of(eleven: &[u64]) -> u64
    requires { (length eleven.now ≡ 11) × Possible eleven.now }
    ensures { result ≡ deviation (held eleven.now) 5 }
{
    let before: u64 = eleven[..5].iter().sum();
    let after: u64 = eleven[6..].iter().sum();
    stands_out(10 * eleven[5], before + after)
}

// The totals of the lines of an accepted call: of 12 lines or more, and none above what 100 frames of 128 sites can have.
#[derive(Clone, Copy)]
struct LineTotals<'a> {
    each: &'a [u64],
    ghost enough: { (12 ≤ length each.now) × (length each.now ≤ 128) },
    ghost possible: { Possible each.now },
}

impl<'a> LineTotals<'a> {
    // The sum of the squared steps from each total to the next.
    fn level(self) -> u64
        ensures { result ≡ level_of (length self.entry.each.now) (held self.entry.each.now) }
    {
        let mut sum: u64 = 0;
        for pair in self.each.windows(2) {
            sum += step(pair[0], pair[1]);
        }
        sum
    }

    // The greatest deviation, of all lines that have five on either side.
    fn max(self) -> u64
        ensures { result ≡ max_of (length self.entry.each.now) (held self.entry.each.now) }
    {
        let mut greatest: u64 = 0;
        for eleven in self.each.windows(11) {
            greatest = greatest.max(deviation_of(eleven));
        }
        greatest
    }

    #[tactic(auto, unfolding(crate::specs::Figures::figures_of))]
    fn figures(self, unit: u64) -> Figures
        requires { unit ≤ 52416000 }
        ensures { result ≡ figures_of (length self.entry.each.now) unit (held self.entry.each.now) }
    {
        Figures {
            level_numerator: self.level(),
            level_denominator: (self.each.len() as u64 - 1) * (unit * unit),
            max_numerator: self.max(),
            max_denominator: 10 * unit,
        }
    }
}

// The figures of the totals of all lines, which are filled while the sums are walked.
fn measure(
    lines: Lines,
    width: usize,
    height: usize,
    full_scale: u64,
    frames: u64,
    sums: &[u32],
) -> Figures
    requires { (12 ≤ line_of lines height width) × Accepted width height full_scale frames sums.now }
    ensures { result ≡ pattern_figures (lined lines width height) full_scale frames (held sums.now) }
{
    // Document 01 names the array: totals of all 128 columns, filled while the sums are walked.
    let mut totals = [0u64; 128];
    for y in 0..height {
        add_row(lines, width, y, sums, &mut totals);
    }
    let lined = LineTotals {
        each: &totals[..line_of(lines, height, width)],
    };
    let long = line_of(lines, width, height) as u64;
    lined.figures(long * frames * full_scale)
}

#[tactic(auto, using(crate::proofs::Judges::paper_of_answer), unfolding(crate::specs::Pattern::pattern_answer))]
fn pattern_by(
    lines: Lines,
    width: usize,
    height: usize,
    full_scale: u64,
    frames: u64,
    mask: &[u8],
    sums: &[u32],
) -> Result<Figures, Refusal>
    ensures answer { result ≡ pattern_answer (lined lines) width height full_scale frames mask.now sums.now }
    ensures paper { paper_of result ≡ pattern_paper (lined lines) width height full_scale frames mask.now sums.now }
{
    judge(lines, width, height, full_scale, frames, mask, sums)?;
    Ok(measure(lines, width, height, full_scale, frames, sums))
}

pub fn pattern_vertical(
    width: usize,
    height: usize,
    full_scale: u64,
    frames: u64,
    mask: &[u8],
    sums: &[u32],
) -> Result<Figures, Refusal>
    ensures answer { result ≡ pattern_answer columns width height full_scale frames mask.now sums.now }
    ensures paper { paper_of result ≡ pattern_paper columns width height full_scale frames mask.now sums.now }
{
    pattern_by(
        Lines::Columns,
        width,
        height,
        full_scale,
        frames,
        mask,
        sums,
    )
}

pub fn pattern_horizontal(
    width: usize,
    height: usize,
    full_scale: u64,
    frames: u64,
    mask: &[u8],
    sums: &[u32],
) -> Result<Figures, Refusal>
    ensures answer { result ≡ pattern_answer rows width height full_scale frames mask.now sums.now }
    ensures paper { paper_of result ≡ pattern_paper rows width height full_scale frames mask.now sums.now }
{
    pattern_by(Lines::Rows, width, height, full_scale, frames, mask, sums)
}
