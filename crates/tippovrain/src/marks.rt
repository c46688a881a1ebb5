// Defective rows and columns.
ghost use Rattle.std.specs.Prelude.{◌≡◌, length};
ghost use Rattle.lines.specs.Lines.{rows, columns};
ghost use Rattle.lines.specs.Marks.{lines_paper, lines_buffer};

use crate::answers::tell_counted;

#[unsafe(no_mangle)]
pub extern "C" fn tip_defective_rows(
    width: usize,
    height: usize,
    full_scale: u64,
    mask: &[u8],
    frame: &[u16],
    marks: &mut [u8],
    place: &mut u64,
    over: &mut u64,
) -> u64
    ensures number { result ≡ (lines_paper rows width height full_scale mask.now frame.now (length marks.old)).number }
    ensures place { place.new ≡ (lines_paper rows width height full_scale mask.now frame.now (length marks.old)).place }
    ensures over { over.new ≡ (lines_paper rows width height full_scale mask.now frame.now (length marks.old)).over }
    ensures buffer { marks.new ≡ lines_buffer rows width height full_scale mask.now frame.now marks.old }
{
    let answer = lines::defective_rows(width, height, full_scale, mask, frame, marks);
    tell_counted(answer, place, over)
}

#[unsafe(no_mangle)]
pub extern "C" fn tip_defective_columns(
    width: usize,
    height: usize,
    full_scale: u64,
    mask: &[u8],
    frame: &[u16],
    marks: &mut [u8],
    place: &mut u64,
    over: &mut u64,
) -> u64
    ensures number { result ≡ (lines_paper columns width height full_scale mask.now frame.now (length marks.old)).number }
    ensures place { place.new ≡ (lines_paper columns width height full_scale mask.now frame.now (length marks.old)).place }
    ensures over { over.new ≡ (lines_paper columns width height full_scale mask.now frame.now (length marks.old)).over }
    ensures buffer { marks.new ≡ lines_buffer columns width height full_scale mask.now frame.now marks.old }
{
    let answer = lines::defective_columns(width, height, full_scale, mask, frame, marks);
    tell_counted(answer, place, over)
}
