// Colour shading.
ghost use Rattle.std.specs.Prelude.{◌≡◌, length};
ghost use Rattle.blocks.specs.Table.{table_paper, table_totals, table_counts};
ghost use Rattle.blocks.specs.Recode.{recode_paper, recode_mask, recode_totals, recode_counts};
ghost use Rattle.shading.specs.Judge.{asked, lengths, judge_paper, judge_numerators, judge_denominators, judge_refusals, judge_fails};

use crate::answers::{tell, tell_counted};

#[unsafe(no_mangle)]
pub extern "C" fn tip_shading_table(
    width: usize,
    height: usize,
    full_scale: u64,
    mask: &[u8],
    frame: &[u16],
    totals: &mut [u32],
    counts: &mut [u32],
    place: &mut u64,
    over: &mut u64,
) -> u64
    ensures number { result ≡ (table_paper width height full_scale mask.now frame.now (length totals.old) (length counts.old)).number }
    ensures place { place.new ≡ (table_paper width height full_scale mask.now frame.now (length totals.old) (length counts.old)).place }
    ensures over { over.new ≡ (table_paper width height full_scale mask.now frame.now (length totals.old) (length counts.old)).over }
    ensures totals { totals.new ≡ table_totals width height full_scale mask.now frame.now totals.old counts.old }
    ensures counts { counts.new ≡ table_counts width height full_scale mask.now frame.now totals.old counts.old }
{
    let answer = blocks::shading_table(width, height, full_scale, mask, frame, totals, counts);
    tell_counted(answer, place, over)
}

#[unsafe(no_mangle)]
pub extern "C" fn tip_shading_recode(
    width: usize,
    height: usize,
    full_scale: u64,
    site: usize,
    code: u64,
    mask: &mut [u8],
    frame: &[u16],
    totals: &mut [u32],
    counts: &mut [u32],
    place: &mut u64,
    over: &mut u64,
) -> u64
    ensures number { result ≡ (recode_paper width height full_scale site code mask.old frame.now (length totals.old) (length counts.old)).number }
    ensures place { place.new ≡ (recode_paper width height full_scale site code mask.old frame.now (length totals.old) (length counts.old)).place }
    ensures over { over.new ≡ (recode_paper width height full_scale site code mask.old frame.now (length totals.old) (length counts.old)).over }
    ensures mask { mask.new ≡ recode_mask width height full_scale site code mask.old frame.now (length totals.old) (length counts.old) }
    ensures totals { totals.new ≡ recode_totals width height full_scale site code mask.old frame.now totals.old counts.old }
    ensures counts { counts.new ≡ recode_counts width height full_scale site code mask.old frame.now totals.old counts.old }
{
    let answer = blocks::shading_recode(
        width, height, full_scale, site, code, mask, frame, totals, counts,
    );
    tell_counted(answer, place, over)
}

#[unsafe(no_mangle)]
pub extern "C" fn tip_shading_judge(
    width: usize,
    height: usize,
    full_scale: u64,
    black_level: u64,
    bayer_order: u64,
    limit: u64,
    totals: &[u32],
    counts: &[u32],
    numerators: &mut [u64],
    denominators: &mut [u64],
    refusals: &mut [u8],
    fails: &mut [u8],
    place: &mut u64,
) -> u64
    ensures number { result ≡ (judge_paper (asked width height full_scale black_level bayer_order limit) (lengths (length numerators.old) (length denominators.old) (length refusals.old) (length fails.old)) totals.now counts.now).number }
    ensures place { place.new ≡ (judge_paper (asked width height full_scale black_level bayer_order limit) (lengths (length numerators.old) (length denominators.old) (length refusals.old) (length fails.old)) totals.now counts.now).place }
    ensures numerators { numerators.new ≡ judge_numerators (asked width height full_scale black_level bayer_order limit) (lengths (length numerators.old) (length denominators.old) (length refusals.old) (length fails.old)) totals.now counts.now numerators.old }
    ensures denominators { denominators.new ≡ judge_denominators (asked width height full_scale black_level bayer_order limit) (lengths (length numerators.old) (length denominators.old) (length refusals.old) (length fails.old)) totals.now counts.now denominators.old }
    ensures refusals { refusals.new ≡ judge_refusals (asked width height full_scale black_level bayer_order limit) (lengths (length numerators.old) (length denominators.old) (length refusals.old) (length fails.old)) totals.now counts.now refusals.old }
    ensures fails { fails.new ≡ judge_fails (asked width height full_scale black_level bayer_order limit) (lengths (length numerators.old) (length denominators.old) (length refusals.old) (length fails.old)) totals.now counts.now fails.old }
{
    let answer = shading::shading_judge(
        width,
        height,
        full_scale,
        black_level,
        bayer_order,
        limit,
        totals,
        counts,
        numerators,
        denominators,
        refusals,
        fails,
    );
    tell(answer, place)
}
