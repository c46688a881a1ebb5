// The noise of a pair of frames: document 01, "Pair noise", as document 02 f merges its two calls.
#![tactic(auto)]

ghost use Rattle.std.specs.Prelude.{◌≡◌, ◌*◌, ◌^◌, ◌≤◌, ◌<◌, length};
ghost use Rattle.laws.specs.Signed.{apart};
ghost use Rattle.window.specs.View.{one, seen};
ghost use Rattle.pair.specs.Walk.{totals_of};
ghost use Rattle.pair.specs.Figures.{spread_of, figures_of};
ghost use Rattle.pair.specs.Pair.{pair_answer, paper_of, pair_paper};

use verdict::Refusal;

// n surveyed sites; P and Q, and the variance P/Q in grey levels squared; r, the whole root of 2048 × P, and the noise r / (64 × n) in grey levels.
#[derive(Clone, Copy)]
pub struct PairFigures {
    pub n: u64,
    pub p: u64,
    pub q: u64,
    pub r: u64,
    pub variance: f64,
    pub noise: f64,
}

// Sums over the surveyed sites: how many, the samples of each frame, and the squares of the differences.
#[derive(Clone, Copy)]
struct Totals {
    n: u64,
    first: u64,
    second: u64,
    squares: u64,
}

// n and P.
#[derive(Clone, Copy)]
struct Spread {
    n: u64,
    p: u64,
}

// d² of two samples. |d| is taken at 16 bits: at 64 the walk takes twice the time.
fn squared(first: u16, second: u16) -> u64
    ensures { (result ≡ apart second first * apart second first) × (result ≤ 4294836225) }
{
    let d = u32::from(first.abs_diff(second));
    u64::from(d * d)
}

// The one walk. An unsurveyed site adds 0 to every sum.
fn sums(mask: &[u8], first: &[u16], second: &[u16]) -> Totals
    requires { (length mask.now ≤ 16384) × (length first.now ≡ length mask.now) × (length second.now ≡ length mask.now) }
    ensures value { result ≡ totals_of (length mask.now) (one mask.now) (seen mask.now first.now) (seen mask.now second.now) }
    ensures n_bound { (result.n ≤ 16384) × (result.squares ≤ 70366596710400) }
{
    let mut n: u32 = 0;
    let mut of_first: u32 = 0;
    let mut of_second: u32 = 0;
    let mut squares: u64 = 0;
    // By an index: of three buffers nested zips are no plainer.
    for i in 0..mask.len() {
        let code = mask[i];
        let x = window::seen_at(code, first[i]);
        let y = window::seen_at(code, second[i]);
        n += window::one_at(code);
        of_first += u32::from(x);
        of_second += u32::from(y);
        squares += squared(x, y);
    }
    Totals {
        n: u64::from(n),
        first: u64::from(of_first),
        second: u64::from(of_second),
        squares,
    }
}

// n and P, whatever the samples.
fn spread_of(mask: &[u8], first: &[u16], second: &[u16]) -> Spread
    requires { (length mask.now ≤ 16384) × (length first.now ≡ length mask.now) × (length second.now ≡ length mask.now) }
    ensures { result ≡ spread_of (length mask.now) (one mask.now) (seen mask.now first.now) (seen mask.now second.now) }
{
    let t = sums(mask, first, second);
    let d = t.second.abs_diff(t.first);
    Spread {
        n: t.n,
        p: t.n * t.squares - d * d,
    }
}

// All six numbers, from n and P of an accepted pair.
fn figures_of(s: Spread) -> PairFigures
    requires { (2 ≤ s.n) × (s.n ≤ 16384) × (s.p < 2 ^ 53) }
    ensures { result ≡ figures_of s }
{
    let q = 2 * (s.n * s.n);
    let r = exact::root_of(2048 * s.p);
    let variance = exact::ratio(s.p, q);
    let noise = exact::ratio(r, 64 * s.n);
    PairFigures {
        n: s.n,
        p: s.p,
        q,
        r,
        variance,
        noise,
    }
}

// The figures of two frames, or the refusal: 1 to 6 are judged before the walk, 7 after it.
#[tactic(auto, using(crate::proofs::Answers::paper_of_answer), unfolding(crate::specs::Pair::pair_verdict, crate::specs::Pair::pair_answer))]
pub fn pair_figures(
    width: usize,
    height: usize,
    full_scale: u64,
    mask: &[u8],
    first: &[u16],
    second: &[u16],
) -> Result<PairFigures, Refusal>
    ensures answer { result ≡ pair_answer width height full_scale mask.now first.now second.now }
    ensures paper { paper_of result ≡ pair_paper width height full_scale mask.now first.now second.now }
{
    refusals::judge_frames(width, height, full_scale, mask, first, second)?;
    let s = spread_of(mask, first, second);
    verdict::refuse_if(Refusal::TooFew, s.n < 2)?;
    Ok(figures_of(s))
}
