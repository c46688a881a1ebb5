// Stack.
ghost use Rattle.std.specs.Prelude.{◌≡◌};
ghost use Rattle.stack.specs.State.{stack_of};
ghost use Rattle.adding.specs.Add.{add_paper, add_stack};
ghost use Rattle.variance.specs.Variance.{variance_paper};
ghost use Rattle.blinking.specs.Blinking.{blinking_paper};

use crate::answers::{tell, tell_counted};
use stack::Stack;
use variance::Variance;

#[unsafe(no_mangle)]
pub extern "C" fn tip_stack_add(
    width: usize,
    height: usize,
    full_scale: u64,
    frames: u64,
    mask: &[u8],
    frame: &[u16],
    sums: &mut [u32],
    squares: &mut [u32],
    least: &mut [u16],
    greatest: &mut [u16],
    place: &mut u64,
    over: &mut u64,
    count: &mut u64,
) -> u64
    ensures number { result ≡ (add_paper width height full_scale mask.now frame.now (stack_of frames sums.old squares.old least.old greatest.old)).number }
    ensures place { place.new ≡ (add_paper width height full_scale mask.now frame.now (stack_of frames sums.old squares.old least.old greatest.old)).place }
    ensures over { over.new ≡ (add_paper width height full_scale mask.now frame.now (stack_of frames sums.old squares.old least.old greatest.old)).over }
    ensures count { count.new ≡ (add_paper width height full_scale mask.now frame.now (stack_of frames sums.old squares.old least.old greatest.old)).figures }
    ensures sums { sums.new ≡ (add_stack width height full_scale mask.now frame.now (stack_of frames sums.old squares.old least.old greatest.old)).sums }
    ensures squares { squares.new ≡ (add_stack width height full_scale mask.now frame.now (stack_of frames sums.old squares.old least.old greatest.old)).squares }
    ensures least { least.new ≡ (add_stack width height full_scale mask.now frame.now (stack_of frames sums.old squares.old least.old greatest.old)).least }
    ensures greatest { greatest.new ≡ (add_stack width height full_scale mask.now frame.now (stack_of frames sums.old squares.old least.old greatest.old)).greatest }
{
    let answer = adding::stack_add(
        width, height, full_scale, frames, mask, frame, sums, squares, least, greatest,
    );
    *count = answer.unwrap_or(0);
    tell_counted(answer, place, over)
}

#[unsafe(no_mangle)]
pub extern "C" fn tip_stack_variance(
    width: usize,
    height: usize,
    full_scale: u64,
    frames: u64,
    mask: &[u8],
    sums: &[u32],
    squares: &[u32],
    least: &[u16],
    greatest: &[u16],
    place: &mut u64,
    numerator: &mut u64,
    denominator: &mut u64,
    variance: &mut f64,
) -> u64
    ensures number { result ≡ (variance_paper width height full_scale mask.now (stack_of frames sums.now squares.now least.now greatest.now)).number }
    ensures place { place.new ≡ (variance_paper width height full_scale mask.now (stack_of frames sums.now squares.now least.now greatest.now)).place }
    ensures numerator { numerator.new ≡ (variance_paper width height full_scale mask.now (stack_of frames sums.now squares.now least.now greatest.now)).figures.numerator }
    ensures denominator { denominator.new ≡ (variance_paper width height full_scale mask.now (stack_of frames sums.now squares.now least.now greatest.now)).figures.denominator }
    ensures variance { variance.new ≡ (variance_paper width height full_scale mask.now (stack_of frames sums.now squares.now least.now greatest.now)).figures.variance }
{
    let stack = Stack {
        frames,
        sums,
        squares,
        least,
        greatest,
    };
    let answer = variance::stack_variance(width, height, full_scale, mask, &stack);
    let figures = answer.unwrap_or(Variance {
        numerator: 0,
        denominator: 0,
        variance: 0.0,
    });
    *numerator = figures.numerator;
    *denominator = figures.denominator;
    *variance = figures.variance;
    tell(answer, place)
}

#[unsafe(no_mangle)]
pub extern "C" fn tip_blinking_sites(
    width: usize,
    height: usize,
    full_scale: u64,
    frames: u64,
    spread: u64,
    mask: &[u8],
    sums: &[u32],
    squares: &[u32],
    least: &[u16],
    greatest: &[u16],
    place: &mut u64,
    count: &mut u64,
) -> u64
    ensures number { result ≡ (blinking_paper width height full_scale spread mask.now (stack_of frames sums.now squares.now least.now greatest.now)).number }
    ensures place { place.new ≡ (blinking_paper width height full_scale spread mask.now (stack_of frames sums.now squares.now least.now greatest.now)).place }
    ensures count { count.new ≡ (blinking_paper width height full_scale spread mask.now (stack_of frames sums.now squares.now least.now greatest.now)).figures }
{
    let stack = Stack {
        frames,
        sums,
        squares,
        least,
        greatest,
    };
    let answer = blinking::blinking_sites(width, height, full_scale, spread, mask, &stack);
    *count = answer.unwrap_or(0);
    tell(answer, place)
}
