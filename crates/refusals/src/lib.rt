// Refusals 1 to 6, which calls with a mask share: document 01, "Refusal numbers", as document 02 d amends 6.
#![tactic(auto)]

ghost use Rattle.std.specs.Prelude.{◌≡◌, ◌*◌, ◌≤◌, length};
ghost use Rattle.laws.specs.First.{first_to, some_to, count_to};
ghost use Rattle.window.specs.View.{bad_code, seen, above};
ghost use Rattle.refusals.specs.Judge.{shape_of, length_of, codes_of, samples_of, told_by, mask_verdict_by, frame_verdict_by, frames_verdict};

use verdict::{Refusal, Refusing};
use window::View;

// Refusals 1 and 2.
#[tactic(auto, unfolding(crate::specs::Judge::shape_by))]
pub fn shape(width: usize, height: usize, full_scale: u64) -> Result<(), Refusal>
    ensures { result ≡ shape_of width height full_scale }
{
    verdict::refuse_if(Refusal::Sides, window::bad_sides(width, height))?;
    verdict::refuse_if(Refusal::FullScale, window::bad_scale(full_scale))
}

// Refusal 4, of a buffer that is to have one element for each site.
pub fn length(width: usize, height: usize, long: usize) -> Result<(), Refusal>
    ensures { result ≡ length_of width height long }
{
    verdict::refuse_if(Refusal::Length, long != window::sites(width, height))
}

// The first site in row order whose code is above 3, or the number of sites. Document 01 names the form: nested loops, left by label, and so the count that is left at.
// Two walks, this and the next, and not one over a closure: its clause would be a relation of its calls, where these say which site it is.
fn first_bad_code(width: usize, height: usize, mask: &[u8]) -> usize
    requires { length mask.now ≡ height * width }
    ensures { result ≡ first_to (height * width) (bad_code mask.now) }
{
    let mut at: usize = 0;
    'rows: for y in 0..height {
        for x in 0..width {
            if 3 < mask[at] {
                break 'rows;
            }
            at += 1;
        }
    }
    at
}

// The first surveyed site in row order whose sample is above full scale, or the number of sites, in the same form.
fn first_over(view: &View, full_scale: u16) -> usize
    ensures { result ≡ first_to (view.now.height * view.now.width) (above full_scale (seen view.now.mask.now view.now.frame.now)) }
{
    let mut site: usize = 0;
    'rows: for row in 0..view.height {
        for column in 0..view.width {
            if full_scale < window::seen_at(view.mask[site], view.frame[site]) {
                break 'rows;
            }
            site += 1;
        }
    }
    site
}

// Whether some surveyed sample is above a full scale of 16 bits: a walk with no way out, as `some_code_above` of window.
fn some_over(view: &View, full_scale: u16) -> bool
    ensures { result ≡ some_to (length view.now.mask.now) (above full_scale (seen view.now.mask.now view.now.frame.now)) }
{
    let mut found = false;
    for (code, sample) in view.mask.iter().zip(view.frame) {
        found |= full_scale < window::seen_at(*code, *sample);
    }
    found
}

// How many surveyed samples are above a full scale of 16 bits.
fn count_over(view: &View, full_scale: u16) -> u16
    ensures { (result ≡ count_to (length view.now.mask.now) (above full_scale (seen view.now.mask.now view.now.frame.now))) × (result ≤ 16384) }
{
    let mut count: u16 = 0;
    for (code, sample) in view.mask.iter().zip(view.frame) {
        count += u16::from(full_scale < window::seen_at(*code, *sample));
    }
    count
}

// How many surveyed samples of a frame are above full scale. They are counted only where there are some: telling that takes less time.
fn over(view: &View, full_scale: u64) -> u64
    requires { full_scale ≤ 4095 }
    ensures { (result ≡ count_to (length view.now.mask.now) (above full_scale (seen view.now.mask.now view.now.frame.now))) × (result ≤ 16384) }
{
    let scale = full_scale as u16;
    if some_over(view, scale) {
        u64::from(count_over(view, scale))
    } else {
        0
    }
}

// Refusal 5, of a mask of the window: only where some code is bad is the place looked for.
fn codes(width: usize, height: usize, mask: &[u8]) -> Result<(), Refusal>
    requires { length mask.now ≡ height * width }
    ensures { result ≡ codes_of (height * width) mask.now }
{
    if !window::some_code_above(3, mask) {
        return Ok(());
    }
    let place = first_bad_code(width, height, mask);
    verdict::refuse_if(Refusal::Code(place), place < mask.len())
}

// Refusal 6 of a frame, of which `own` samples are above full scale, and `over` of all frames of the call: only where it has some is the place looked for.
fn samples(view: &View, full_scale: u64, own: u64, over: u64) -> Result<(), Refusal>
    requires { (full_scale ≤ 4095) × (own ≡ count_to (length view.now.mask.now) (above full_scale (seen view.now.mask.now view.now.frame.now))) }
    ensures { result ≡ samples_of over (length view.now.mask.now) full_scale (seen view.now.mask.now view.now.frame.now) }
{
    if own == 0 {
        return Ok(());
    }
    let place = first_over(view, full_scale as u16);
    Err(Refusal::Over(place, over))
}

// A verdict of the table's refusals, in a caller's own.
fn told<R: Refusing>(verdict: Result<(), Refusal>) -> Result<(), R>
    ensures { result ≡ told_by R.told verdict }
{
    match verdict {
        Ok(()) => Ok(()),
        Err(refusal) => Err(R::of(refusal)),
    }
}

// Refusals 1 to 5 of a call with a mask, the call's own 3, `parameters`, and 4, `lengths`, in their places: what it hands in is given back in its turn, whatever its type.
#[tactic(auto, unfolding(crate::specs::Judge::mask_verdict_by), using(crate::proofs::OwnRefusals::shape_told, crate::proofs::OwnRefusals::length_told, crate::proofs::OwnRefusals::codes_told))]
pub fn judge_mask<R: Refusing>(
    width: usize,
    height: usize,
    full_scale: u64,
    parameters: Result<(), R>,
    mask: &[u8],
    lengths: Result<(), R>,
) -> Result<(), R>
    ensures { result ≡ mask_verdict_by R.told width height full_scale parameters mask.now lengths }
{
    told::<R>(shape(width, height, full_scale))?;
    parameters?;
    told::<R>(length(width, height, mask.len()))?;
    lengths?;
    told(codes(width, height, mask))
}

// Refusals 1 to 6 of a call with a mask and a frame, likewise.
#[tactic(auto, unfolding(crate::specs::Judge::frame_verdict_by), using(crate::proofs::OwnRefusals::length_told))]
pub fn judge_frame<R: Refusing>(
    width: usize,
    height: usize,
    full_scale: u64,
    parameters: Result<(), R>,
    mask: &[u8],
    frame: &[u16],
    lengths: Result<(), R>,
) -> Result<(), R>
    ensures { result ≡ frame_verdict_by R.told width height full_scale parameters mask.now frame.now lengths }
{
    let framed = told::<R>(length(width, height, frame.len())).and(lengths);
    judge_mask(width, height, full_scale, parameters, mask, framed)?;
    let view = View {
        width,
        height,
        mask,
        frame,
    };
    let count = over(&view, full_scale);
    told(samples(&view, full_scale, count, count))
}

// Refusals 1 to 6 of a call with a mask and two frames.
#[tactic(auto, unfolding(crate::specs::Judge::frames_verdict))]
pub fn judge_frames(
    width: usize,
    height: usize,
    full_scale: u64,
    mask: &[u8],
    first: &[u16],
    second: &[u16],
) -> Result<(), Refusal>
    ensures { result ≡ frames_verdict width height full_scale mask.now first.now second.now }
{
    let of_first = length(width, height, first.len());
    let of_second = length(width, height, second.len());
    judge_mask(
        width,
        height,
        full_scale,
        Ok(()),
        mask,
        of_first.and(of_second),
    )?;
    let of_one = View {
        width,
        height,
        mask,
        frame: first,
    };
    let of_other = View {
        width,
        height,
        mask,
        frame: second,
    };
    let over_first = over(&of_one, full_scale);
    let over_second = over(&of_other, full_scale);
    let both = over_first + over_second;
    samples(&of_one, full_scale, over_first, both)?;
    samples(&of_other, full_scale, over_second, both)
}
