// A stack of frames, and refusal 11 of it: document 01, "Stack", as document 02 i amends it.
#![tactic(auto)]

ghost use Rattle.std.specs.Prelude.{◌≡◌, true, ◌%◌, ◌≤◌, ◌<◌, length};
ghost use Rattle.verdict.specs.Verdict.{◌⨟◌, refuse_if};
ghost use Rattle.verdict.specs.declared.Refusal.TheVariants.{Impossible};
ghost use Rattle.refusals.specs.Judge.{length_of};
ghost use Rattle.stack.specs.State.{stack_of, stack_lengths, impossible_in};
ghost use Rattle.stack.specs.Walk.{readable, top, beyond, found_impossible};

use std::marker::Model;
use verdict::Refusal;

// Refusal 4 of a stack's buffers, by their lengths: so it is promised, of any lengths, beside the method.
pub fn lengths(
    width: usize,
    height: usize,
    sums: usize,
    squares: usize,
    least: usize,
    greatest: usize,
) -> Result<(), Refusal>
    ensures { result ≡ length_of width height sums ⨟ length_of width height squares ⨟ length_of width height least ⨟ length_of width height greatest }
{
    refusals::length(width, height, sums)?;
    refusals::length(width, height, squares)?;
    refusals::length(width, height, least)?;
    refusals::length(width, height, greatest)
}

// A stack as it is lent: how many frames are in, and one number a site: the sum of its samples, the sum of their squares, the least and the greatest. A
// clause sees these five.
#[derive(Drop)]
pub struct Stack<'a> {
    pub frames: u64,
    pub sums: &'a [u32],
    pub squares: &'a [u32],
    pub least: &'a [u16],
    pub greatest: &'a [u16],
}

impl<'a> Model for Stack<'a> {
    ghost use Rattle.stack.specs.State.{Stack, stack_of};

    ghost Value = { Stack };

    ghost view = { λ s. stack_of s.frames s.sums.now s.squares.now s.least.now s.greatest.now };
}

impl<'a> Stack<'a> {
    // Refusal 4 of its buffers.
    pub fn lengths(&self, width: usize, height: usize) -> Result<(), Refusal>
        ensures { result ≡ stack_lengths width height self.now }
    {
        lengths(
            width,
            height,
            self.sums.len(),
            self.squares.len(),
            self.least.len(),
            self.greatest.len(),
        )
    }

    // Whether its buffers can be walked with a mask, at a full scale whose products fit.
    #[tactic(auto, unfolding(crate::specs::Walk::readable))]
    fn readable(&self, full_scale: u64, mask: &[u8]) -> bool
        ensures { result ≡ readable (length mask.now) full_scale (length self.now.sums) (length self.now.squares) (length self.now.least) (length self.now.greatest) }
    {
        let n = mask.len();
        full_scale <= 4095
            && self.sums.len() == n
            && self.squares.len() == n
            && self.least.len() == n
            && self.greatest.len() == n
    }

    // 11 at some surveyed site, by the count's rest by 128: a count to 100 is its own. Walked so, with no branch on the count before it, its products stay narrow and
    // the walk quick.
    fn some_impossible(&self, full_scale: u64, mask: &[u8]) -> bool
        requires { readable (length mask.now) full_scale (length self.now.sums) (length self.now.squares) (length self.now.least) (length self.now.greatest) ≡ true }
        ensures { result ≡ impossible_in (length mask.now) full_scale mask.now (stack_of (self.now.frames % 128) self.now.sums self.now.squares self.now.least self.now.greatest) }
    {
        let frames = (self.frames % 128) as u16;
        // With no frames in, s is 0, so 1 × least asks whether the least is above 0.
        let k_or_one = frames.max(1);
        let most_squares = (u64::from(frames) * (full_scale * full_scale)) as u32;
        let most = top(full_scale, frames);
        let mut found = false;
        // Five buffers by one index: nested zips would be no plainer.
        for i in 0..mask.len() {
            let bad = beyond(
                frames,
                k_or_one,
                most_squares,
                most,
                self.sums[i],
                self.squares[i],
                self.least[i],
                self.greatest[i],
            );
            found |= (mask[i] == 0) & bad;
        }
        found
    }
}

// Refusal 11 of a stack of at most 100 frames that can be walked; any other is clear here, and has its refusal before.
pub fn refuse_impossible(full_scale: u64, mask: &[u8], stack: &Stack) -> Result<(), Refusal>
    ensures { result ≡ refuse_if Impossible (found_impossible full_scale mask.now stack.now) }
{
    if stack.readable(full_scale, mask) {
        let found = stack.some_impossible(full_scale, mask);
        verdict::refuse_if(Refusal::Impossible, (stack.frames <= 100) & found)
    } else {
        Ok(())
    }
}

// The most that a greatest sample can be.
#[tactic(auto, unfolding(crate::specs::Walk::top))]
fn top(full_scale: u64, frames: u16) -> u16
    requires { full_scale ≤ 4095 }
    ensures { result ≡ top full_scale frames }
{
    if frames == 0 { 0 } else { full_scale as u16 }
}

// 11 at one site: what it leaves out never decides alone (the law `by_limits`). Each number has as few bits as it needs, and the wide products are formed
// last: so more sites are walked at once.
#[tactic(auto, unfolding(crate::specs::Walk::beyond))]
fn beyond(
    frames: u16,
    k_or_one: u16,
    most_squares: u32,
    most: u16,
    sum: u32,
    square: u32,
    least: u16,
    greatest: u16,
) -> bool
    ensures { result ≡ beyond frames k_or_one most_squares most sum square least greatest }
{
    let too_great = most < greatest;
    let square_over = most_squares < square;
    let low = u32::from(k_or_one) * u32::from(least);
    let sum_below = sum < low;
    let high = u32::from(frames) * u32::from(greatest);
    let sum_above = high < sum;
    let k_square = u64::from(frames) * u64::from(square);
    let sum_square = u64::from(sum) * u64::from(sum);
    let crossed = k_square < sum_square;
    (((crossed | square_over) | sum_below) | sum_above) | too_great
}
