// The dark level: document 01, "Dark level".
#![tactic(auto)]

ghost use Rattle.std.specs.Prelude.{◌≡◌, ◌≤◌, length};
ghost use Rattle.laws.specs.Sum.{sum_to};
ghost use Rattle.window.specs.Walk.{walked};
ghost use Rattle.window.specs.View.{seen, one};
ghost use Rattle.dark.specs.Dark.{above_black, dark_verdict, dark_answer, paper_of, dark_paper};

use verdict::Refusal;

// The level is numerator / denominator grey levels, unreduced. A type of its own, as a ratio of colours is: each is named by what it tells.
#[derive(Clone, Copy)]
pub struct Level {
    pub numerator: i64,
    pub denominator: u64,
}

// Refusals 1 to 7, where `count` sites are surveyed.
#[tactic(auto, unfolding(crate::specs::Dark::dark_verdict))]
fn judge(
    width: usize,
    height: usize,
    full_scale: u64,
    black_level: u64,
    mask: &[u8],
    frame: &[u16],
    count: u64,
) -> Result<(), Refusal>
    requires { count ≡ sum_to (walked width height (length mask.now)) (one mask.now) }
    ensures { result ≡ dark_verdict width height full_scale black_level mask.now frame.now }
{
    let black = verdict::refuse_if(Refusal::Parameter, full_scale < black_level);
    refusals::judge_frame(width, height, full_scale, black, mask, frame, Ok(()))?;
    verdict::refuse_if(Refusal::TooFew, count == 0)
}

// The sum of sample minus black level over the surveyed sites.
fn above_black(black_level: u64, mask: &[u8], frame: &[u16]) -> i64
    requires { (black_level ≤ 4095) × (length frame.now ≡ length mask.now) × (length mask.now ≤ 16384) }
    ensures { result ≡ above_black (length mask.now) black_level (seen mask.now frame.now) (one mask.now) }
{
    // `as`, since i64 has no From of u64, and `try_from` would want a case that 3 has refused.
    let black = black_level as i64;
    let mut sum: i64 = 0;
    for (code, sample) in mask.iter().zip(frame) {
        sum += window::if_surveyed(*code, i64::from(*sample) - black, 0);
    }
    sum
}

#[tactic(auto, unfolding(crate::specs::Dark::dark_answer, crate::specs::Dark::dark_paper))]
pub fn dark_level(
    width: usize,
    height: usize,
    full_scale: u64,
    black_level: u64,
    mask: &[u8],
    frame: &[u16],
) -> Result<Level, Refusal>
    ensures answer { result ≡ dark_answer width height full_scale black_level mask.now frame.now }
    ensures paper { paper_of result ≡ dark_paper width height full_scale black_level mask.now frame.now }
{
    let count = window::surveyed(width, height, mask);
    judge(width, height, full_scale, black_level, mask, frame, count)?;
    Ok(Level {
        numerator: above_black(black_level, mask, frame),
        denominator: count,
    })
}
