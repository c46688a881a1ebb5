// The variance of a stack: document 01, "Stack", as document 02 i amends it.
#![tactic(auto)]

ghost use Rattle.std.specs.Prelude.{◌≡◌, ◌-◌, ◌*◌, ◌≤◌, ◌<◌, length};
ghost use Rattle.laws.specs.Sum.{sum_to};
ghost use Rattle.window.specs.Walk.{walked};
ghost use Rattle.window.specs.View.{seen_at, seen, one};
ghost use Rattle.variance.specs.Variance.{too_few, variance_verdict, scatter, variance_answer, variance_paper_of, variance_paper};

use stack::Stack;
use verdict::Refusal;

// The numerator, the denominator and their quotient, rounded once.
#[derive(Clone, Copy)]
pub struct Variance {
    pub numerator: u64,
    pub denominator: u64,
    pub variance: f64,
}

#[tactic(auto, unfolding(crate::specs::Variance::too_few))]
fn too_few(sites: u64, frames: u64) -> bool
    ensures { result ≡ too_few sites frames }
{
    sites == 0 || frames < 2
}

// k × q − s² at a site, as it is seen; 0 where s² is above k × q.
fn scatter_at(frames: u32, code: u8, sum: u32, square: u32) -> u64
    ensures { result ≡ frames * seen_at code square - seen_at code sum * seen_at code sum }
{
    let k_square = u64::from(frames) * u64::from(square);
    let sum_square = u64::from(sum) * u64::from(sum);
    window::if_surveyed(code, k_square.saturating_sub(sum_square), 0)
}

// The sum of k × q − s² over the surveyed sites.
fn scatter(frames: u32, mask: &[u8], sums: &[u32], squares: &[u32]) -> u64
    requires { (frames < 128) × (length mask.now ≤ 16384) × (length sums.now ≡ length mask.now) × (length squares.now ≡ length mask.now) }
    ensures { result ≡ scatter (length mask.now) frames (seen mask.now sums.now) (seen mask.now squares.now) }
{
    let mut total: u64 = 0;
    // Three buffers by one index: nested zips would be no plainer.
    for i in 0..mask.len() {
        total += scatter_at(frames, mask[i], sums[i], squares[i]);
    }
    total
}

// The numerator of a stack that is not refused; of buffers that cannot be walked 0, which nobody reads. It is walked by the count's rest by 128, before the first `?`: so its products stay narrow.
fn numerator(frames: u64, mask: &[u8], sums: &[u32], squares: &[u32]) -> u64
    ensures { frames ≤ 100 → length mask.now ≤ 16384 → length sums.now ≡ length mask.now → length squares.now ≡ length mask.now
        → result ≡ scatter (length mask.now) frames (seen mask.now sums.now) (seen mask.now squares.now) }
{
    if mask.len() <= 16384 && sums.len() == mask.len() && squares.len() == mask.len() {
        scatter((frames % 128) as u32, mask, sums, squares)
    } else {
        0
    }
}

// Refusals 1 to 5, 7 and 11 of a stack with this many surveyed sites.
// The walk for 11 comes before the first `?`, so that its products stay narrow: where it is called behind one, it takes up to a quarter longer.
fn judge_variance(
    width: usize,
    height: usize,
    full_scale: u64,
    mask: &[u8],
    stack: &Stack,
    count: u64,
) -> Result<(), Refusal>
    requires { count ≡ sum_to (walked width height (length mask.now)) (one mask.now) }
    ensures { result ≡ variance_verdict width height full_scale mask.now stack.now }
{
    let bad = verdict::refuse_if(Refusal::Parameter, window::bad_count(stack.frames));
    let lengths = stack.lengths(width, height);
    let impossible = stack::refuse_impossible(full_scale, mask, stack);
    refusals::judge_mask(width, height, full_scale, bad, mask, lengths)?;
    verdict::refuse_if(Refusal::TooFew, too_few(count, stack.frames))?;
    impossible
}

// The variance of a stack.
#[tactic(auto, unfolding(crate::specs::Variance::variance_answer, crate::specs::Variance::variance_paper))]
pub fn stack_variance(
    width: usize,
    height: usize,
    full_scale: u64,
    mask: &[u8],
    stack: &Stack,
) -> Result<Variance, Refusal>
    ensures answer { result ≡ variance_answer width height full_scale mask.now stack.now }
    ensures paper { variance_paper_of result ≡ variance_paper width height full_scale mask.now stack.now }
{
    let count = window::surveyed(width, height, mask);
    let upper = numerator(stack.frames, mask, stack.sums, stack.squares);
    judge_variance(width, height, full_scale, mask, stack, count)?;
    let lower = count * (stack.frames * stack.frames);
    Ok(Variance {
        numerator: upper,
        denominator: lower,
        variance: exact::ratio(upper, lower),
    })
}
