// Blinking sites of a stack: document 02, i.
#![tactic(auto)]

ghost use Rattle.std.specs.Prelude.{◌≡◌, ◌≤◌, length};
ghost use Rattle.laws.specs.First.{count_to};
ghost use Rattle.blinking.specs.Blinking.{bad_spread, blinks_at, blinks, blinking_verdict, blinking_answer, blinking_paper_of, blinking_paper};

use stack::Stack;
use verdict::Refusal;

#[tactic(auto, unfolding(crate::specs::Blinking::bad_spread))]
fn bad_spread(spread: u64) -> bool
    ensures { result ≡ bad_spread spread }
{
    !(1..=4095).contains(&spread)
}

// Refusals 1 to 5 and 11.
// The walk for 11 comes before the first `?`, so that its products stay narrow: where it is called behind one, it takes up to a quarter longer.
fn judge_blinking(
    width: usize,
    height: usize,
    full_scale: u64,
    spread: u64,
    mask: &[u8],
    stack: &Stack,
) -> Result<(), Refusal>
    ensures { result ≡ blinking_verdict width height full_scale spread mask.now stack.now }
{
    let three = bad_spread(spread) | window::bad_count(stack.frames);
    let bad = verdict::refuse_if(Refusal::Parameter, three);
    let lengths = stack.lengths(width, height);
    let impossible = stack::refuse_impossible(full_scale, mask, stack);
    refusals::judge_mask(width, height, full_scale, bad, mask, lengths)?;
    impossible
}

// Whether a site blinks: at the greatest less the least, 0 where they are reversed, which 11 refuses at a surveyed site.
#[tactic(auto, unfolding(crate::specs::Blinking::blinks_at))]
fn blinks_at(spread: u16, code: u8, least: u16, greatest: u16) -> bool
    ensures { result ≡ blinks_at spread code least greatest }
{
    let wide = spread <= greatest.saturating_sub(least);
    (code == 0) & wide
}

// How many sites blink.
fn count_blinking(spread: u16, mask: &[u8], least: &[u16], greatest: &[u16]) -> u16
    requires { (length mask.now ≤ 16384) × (length least.now ≡ length mask.now) × (length greatest.now ≡ length mask.now) }
    ensures { result ≡ count_to (length mask.now) (blinks spread mask.now least.now greatest.now) }
{
    let mut count: u16 = 0;
    // Three buffers by one index: nested zips would be no plainer.
    for i in 0..mask.len() {
        count += u16::from(blinks_at(spread, mask[i], least[i], greatest[i]));
    }
    count
}

// How many surveyed sites of a stack have at least this spread.
#[tactic(auto, unfolding(crate::specs::Blinking::blinking_answer, crate::specs::Blinking::blinking_paper))]
pub fn blinking_sites(
    width: usize,
    height: usize,
    full_scale: u64,
    spread: u64,
    mask: &[u8],
    stack: &Stack,
) -> Result<u64, Refusal>
    ensures answer { result ≡ blinking_answer width height full_scale spread mask.now stack.now }
    ensures paper { blinking_paper_of result ≡ blinking_paper width height full_scale spread mask.now stack.now }
{
    judge_blinking(width, height, full_scale, spread, mask, stack)?;
    let count = count_blinking(spread as u16, mask, stack.least, stack.greatest);
    Ok(u64::from(count))
}
