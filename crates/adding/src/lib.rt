// Adding a frame to a stack: document 01, "Stack", as document 02 i amends it.
#![tactic(auto)]

ghost use Rattle.std.specs.Prelude.{◌≡◌, ℕ, ◌+◌, ◌^◌, ◌<◌, length, get_or};
ghost use Rattle.laws.specs.Greatest.{lesser, greater};
ghost use Rattle.window.specs.View.{seen};
ghost use Rattle.stack.specs.State.{stack_of};
ghost use Rattle.adding.specs.After.{squared, added, extreme_at, extremes};
ghost use Rattle.adding.specs.Add.{add_verdict, add_answer, add_paper_of, add_paper, add_stack};

use stack::Stack;
use verdict::Refusal;

// Refusals 1 to 6, 11 and 12 of a frame that is offered.
// The walk for 11 comes before the first `?`, so that its products stay narrow: where it is called behind one, it takes up to a quarter longer.
fn judge_add(
    width: usize,
    height: usize,
    full_scale: u64,
    mask: &[u8],
    frame: &[u16],
    stack: &Stack,
) -> Result<(), Refusal>
    ensures { result ≡ add_verdict width height full_scale mask.now frame.now stack.now }
{
    let count = verdict::refuse_if(Refusal::Parameter, 100 < stack.frames);
    let lengths = stack.lengths(width, height);
    let impossible = stack::refuse_impossible(full_scale, mask, stack);
    refusals::judge_frame(width, height, full_scale, count, mask, frame, lengths)?;
    impossible?;
    verdict::refuse_if(Refusal::StackFull, stack.frames == 100)
}

// Adds what is seen of a frame, where each sum has room.
fn add_seen(mask: &[u8], frame: &[u16], sums: &mut [u32], squares: &mut [u32])
    requires { (length frame.now ≡ length mask.now) × (length sums.old ≡ length mask.now) × (length squares.old ≡ length mask.now)
        × ((i : ℕ) → i < length mask.now → get_or sums.old i 0 + seen mask.now frame.now i < 2 ^ 32)
        × ((i : ℕ) → i < length mask.now → get_or squares.old i 0 + squared (seen mask.now frame.now) i < 2 ^ 32) }
    ensures sums { sums.new ≡ added (seen mask.now frame.now) sums.old }
    ensures squares { squares.new ≡ added (squared (seen mask.now frame.now)) squares.old }
{
    // Four buffers by one index, two of them written: nested zips would be no plainer.
    for i in 0..mask.len() {
        let sample = u32::from(window::seen_at(mask[i], frame[i]));
        sums[i] += sample;
        squares[i] += sample * sample;
    }
}

// A site's least or greatest after one sample more: the first sample is both, and of a later one and what stood there the one chosen.
#[tactic(auto, unfolding(crate::specs::After::extreme_at), using(crate::proofs::Turns::extreme_none_in, crate::proofs::Turns::extreme_some_in))]
fn extreme_with(frames: u64, code: u8, before: u16, sample: u16, chosen: u16) -> u16
    ensures { result ≡ extreme_at (λ (x y : ℕ). chosen) frames code before sample }
{
    if frames == 0 {
        window::if_surveyed(code, sample, before)
    } else {
        window::if_surveyed(code, chosen, before)
    }
}

// Widens least and greatest to hold what is seen of a frame.
fn widen(frames: u64, mask: &[u8], frame: &[u16], least: &mut [u16], greatest: &mut [u16])
    requires { (length frame.now ≡ length mask.now) × (length least.old ≡ length mask.now) × (length greatest.old ≡ length mask.now) }
    ensures least { least.new ≡ extremes lesser frames mask.now (seen mask.now frame.now) least.old }
    ensures greatest { greatest.new ≡ extremes greater frames mask.now (seen mask.now frame.now) greatest.old }
{
    // Four buffers by one index, two of them written: nested zips would be no plainer.
    for i in 0..mask.len() {
        let code = mask[i];
        let sample = frame[i];
        least[i] = extreme_with(frames, code, least[i], sample, least[i].min(sample));
        greatest[i] = extreme_with(frames, code, greatest[i], sample, greatest[i].max(sample));
    }
}

// Adds a frame to a stack of `frames` frames. Its parts are lent one by one, since four are written: a second struct for this call alone would be no plainer.
#[tactic(auto, unfolding(crate::specs::Add::add_answer, crate::specs::Add::add_paper, crate::specs::Add::add_stack))]
pub fn stack_add(
    width: usize,
    height: usize,
    full_scale: u64,
    frames: u64,
    mask: &[u8],
    frame: &[u16],
    sums: &mut [u32],
    squares: &mut [u32],
    least: &mut [u16],
    greatest: &mut [u16],
) -> Result<u64, Refusal>
    ensures answer { result ≡ add_answer width height full_scale mask.now frame.now (stack_of frames sums.old squares.old least.old greatest.old) }
    ensures paper { add_paper_of result ≡ add_paper width height full_scale mask.now frame.now (stack_of frames sums.old squares.old least.old greatest.old) }
    ensures sums { sums.new ≡ (add_stack width height full_scale mask.now frame.now (stack_of frames sums.old squares.old least.old greatest.old)).sums }
    ensures squares { squares.new ≡ (add_stack width height full_scale mask.now frame.now (stack_of frames sums.old squares.old least.old greatest.old)).squares }
    ensures least { least.new ≡ (add_stack width height full_scale mask.now frame.now (stack_of frames sums.old squares.old least.old greatest.old)).least }
    ensures greatest { greatest.new ≡ (add_stack width height full_scale mask.now frame.now (stack_of frames sums.old squares.old least.old greatest.old)).greatest }
{
    let stack = Stack {
        frames,
        sums,
        squares,
        least,
        greatest,
    };
    judge_add(width, height, full_scale, mask, frame, &stack)?;
    add_seen(mask, frame, sums, squares);
    widen(frames, mask, frame, least, greatest);
    Ok(frames + 1)
}
