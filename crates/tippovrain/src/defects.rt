// Defective sites and repair.
ghost use Rattle.std.specs.Prelude.{◌≡◌, length};
ghost use Rattle.sites.specs.Find.{find_paper, find_mask};
ghost use Rattle.repair.specs.Repair.{repair_paper, repair_frame, repair_mask};

use crate::answers::tell_counted;

#[unsafe(no_mangle)]
pub extern "C" fn tip_find_defects(
    width: usize,
    height: usize,
    full_scale: u64,
    threshold: u64,
    mask: &[u8],
    frame: &[u16],
    out_mask: &mut [u8],
    place: &mut u64,
    over: &mut u64,
    count: &mut u64,
) -> u64
    ensures number { result ≡ (find_paper width height full_scale threshold mask.now frame.now (length out_mask.old)).number }
    ensures place { place.new ≡ (find_paper width height full_scale threshold mask.now frame.now (length out_mask.old)).place }
    ensures over { over.new ≡ (find_paper width height full_scale threshold mask.now frame.now (length out_mask.old)).over }
    ensures count { count.new ≡ (find_paper width height full_scale threshold mask.now frame.now (length out_mask.old)).figures }
    ensures buffer { out_mask.new ≡ find_mask width height full_scale threshold mask.now frame.now out_mask.old }
{
    let answer = sites::find_defects(width, height, full_scale, threshold, mask, frame, out_mask);
    *count = answer.unwrap_or(0);
    tell_counted(answer, place, over)
}

#[unsafe(no_mangle)]
pub extern "C" fn tip_repair(
    width: usize,
    height: usize,
    full_scale: u64,
    mask: &[u8],
    frame: &[u16],
    out_frame: &mut [u16],
    out_mask: &mut [u8],
    place: &mut u64,
    over: &mut u64,
    filled: &mut u64,
) -> u64
    ensures number { result ≡ (repair_paper width height full_scale mask.now frame.now (length out_frame.old) (length out_mask.old)).number }
    ensures place { place.new ≡ (repair_paper width height full_scale mask.now frame.now (length out_frame.old) (length out_mask.old)).place }
    ensures over { over.new ≡ (repair_paper width height full_scale mask.now frame.now (length out_frame.old) (length out_mask.old)).over }
    ensures filled { filled.new ≡ (repair_paper width height full_scale mask.now frame.now (length out_frame.old) (length out_mask.old)).figures }
    ensures frame { out_frame.new ≡ repair_frame width height full_scale mask.now frame.now out_frame.old (length out_mask.old) }
    ensures mask { out_mask.new ≡ repair_mask width height full_scale mask.now frame.now (length out_frame.old) out_mask.old }
{
    let answer = repair::repair(width, height, full_scale, mask, frame, out_frame, out_mask);
    *filled = answer.unwrap_or(0);
    tell_counted(answer, place, over)
}
