// Repair: document 01, "Repair". Frame and mask are read as they came in, and others are written.
#![tactic(auto)]

ghost use Rattle.std.specs.Prelude.{◌≡◌, cond, ◌-◌, ◌*◌, ◌<◌, ◌≤◌, length};
ghost use Rattle.laws.specs.Table.{tabulate};
ghost use Rattle.window.specs.Shape.{sites_of};
ghost use Rattle.window.specs.View.{seen, one};
ghost use Rattle.near.specs.Near.{around, near_sum};
ghost use Rattle.repair.specs.Repair.{mean_of, filled_at, sample_after, code_after, filled_count, repair_verdict, repair_answer, repair_paper_of, repair_paper, repair_frame, repair_mask};

use plane::{PlaneBox, Sums};
use verdict::Refusal;
use window::View;

// The eight plane neighbours of a site: so many rows and columns of its plane to each side.
const REACH: usize = 1;

// The box of a site's plane that has these neighbours, and the site.
fn box_around(width: usize, i: usize) -> PlaneBox
    requires { (0 < width) × (i < 16384) }
    ensures { result ≡ around 1 width i }
{
    let row = i / width / 2;
    let column = i % width / 2;
    PlaneBox {
        top: row.saturating_sub(REACH),
        bottom: row + REACH + 1,
        left: column.saturating_sub(REACH),
        right: column + REACH + 1,
    }
}

// What is seen there.
fn near_sums(view: &View, i: usize) -> Sums
    requires { i < sites_of view.now.width view.now.height }
    ensures count_value { (result.count ≡ near_sum 1 view.now.width view.now.height (one view.now.mask.now) i) × (result.total ≡ near_sum 1 view.now.width view.now.height (seen view.now.mask.now view.now.frame.now) i) }
    ensures count_bound { (result.count ≤ 4096) × (result.total ≤ 65535 * result.count) }
{
    let width = view.width;
    let plane = 2 * (i / width % 2) + i % width % 2;
    let around = box_around(width, i);
    plane::box_sums(width, view.height, plane, around, view.mask, view.frame)
}

// The mean of `count` samples, half rounded up.
#[tactic(auto, unfolding(crate::specs::Repair::mean_of))]
fn mean(total: u64, count: u64) -> u16
    requires { (0 < count) × (count ≤ 4096) × (total ≤ 65535 * count) }
    ensures { result ≡ mean_of total count }
{
    ((2 * total + count) / (2 * count)) as u16
}

// What becomes of a site: its sample, its code (a number, as C lends them), and whether it is filled, which the count adds.
#[derive(Clone, Copy)]
struct Site {
    sample: u16,
    code: u8,
    filled: bool,
}

#[tactic(auto, unfolding(crate::specs::Repair::filled_at, crate::specs::Repair::sample_after, crate::specs::Repair::code_after))]
fn fill_at(view: &View, i: usize) -> Site
    requires { i < sites_of view.now.width view.now.height }
    ensures sample_value { result.sample ≡ sample_after view.now.width view.now.height view.now.mask.now (seen view.now.mask.now view.now.frame.now) view.now.frame.now i }
    ensures code_value { result.code ≡ code_after view.now.width view.now.height view.now.mask.now i }
    ensures filled_value { cond result.filled 1 0 ≡ filled_at view.now.width view.now.height view.now.mask.now i }
{
    let as_it_was = Site {
        sample: view.frame[i],
        code: view.mask[i],
        filled: false,
    };
    if as_it_was.code != 2 {
        return as_it_was;
    }
    let sums = near_sums(view, i);
    if sums.count == 0 {
        return as_it_was;
    }
    Site {
        sample: mean(u64::from(sums.total), u64::from(sums.count)),
        code: 3,
        filled: true,
    }
}

// Every site's sample and code, and how many sites are filled.
#[tactic(auto, unfolding(crate::specs::Repair::filled_count))]
fn fill(view: &View, out_frame: &mut [u16], out_mask: &mut [u8]) -> u64
    requires { (length out_frame.old ≡ sites_of view.now.width view.now.height) × (length out_mask.old ≡ sites_of view.now.width view.now.height) }
    ensures value { result ≡ filled_count view.now.width view.now.height view.now.mask.now }
    ensures out_frame_after { out_frame.new ≡ tabulate (sites_of view.now.width view.now.height) (sample_after view.now.width view.now.height view.now.mask.now (seen view.now.mask.now view.now.frame.now) view.now.frame.now) }
    ensures out_mask_after { out_mask.new ≡ tabulate (sites_of view.now.width view.now.height) (code_after view.now.width view.now.height view.now.mask.now) }
{
    let mut filled = 0;
    // By index: a site's box is told by it, and one turn reads two buffers and writes two.
    for i in 0..out_frame.len() {
        let site = fill_at(view, i);
        out_frame[i] = site.sample;
        out_mask[i] = site.code;
        filled += u64::from(site.filled);
    }
    filled
}

// Refusals 1, 2, 4, 5 and 6 of a repair, of the lengths of the buffers that are written.
#[tactic(auto, unfolding(crate::specs::Repair::repair_verdict))]
fn judge_repair(
    width: usize,
    height: usize,
    full_scale: u64,
    mask: &[u8],
    frame: &[u16],
    out_frame: usize,
    out_mask: usize,
) -> Result<(), Refusal>
    ensures { result ≡ repair_verdict width height full_scale mask.now frame.now out_frame out_mask }
{
    let lent_frame = refusals::length(width, height, out_frame);
    let lent_mask = refusals::length(width, height, out_mask);
    let lengths = lent_frame.and(lent_mask);
    refusals::judge_frame(width, height, full_scale, Ok(()), mask, frame, lengths)
}

#[tactic(auto, using(crate::proofs::Accepts::repair_accepted), unfolding(crate::specs::Repair::repair_answer, crate::specs::Repair::repair_paper, crate::specs::Repair::repair_frame, crate::specs::Repair::repair_mask))]
pub fn repair(
    width: usize,
    height: usize,
    full_scale: u64,
    mask: &[u8],
    frame: &[u16],
    out_frame: &mut [u16],
    out_mask: &mut [u8],
) -> Result<u64, Refusal>
    ensures answer { result ≡ repair_answer width height full_scale mask.now frame.now (length out_frame.old) (length out_mask.old) }
    ensures paper { repair_paper_of result ≡ repair_paper width height full_scale mask.now frame.now (length out_frame.old) (length out_mask.old) }
    ensures frame { out_frame.new ≡ repair_frame width height full_scale mask.now frame.now out_frame.old (length out_mask.old) }
    ensures mask { out_mask.new ≡ repair_mask width height full_scale mask.now frame.now (length out_frame.old) out_mask.old }
{
    judge_repair(
        width,
        height,
        full_scale,
        mask,
        frame,
        out_frame.len(),
        out_mask.len(),
    )?;
    let view = View {
        width,
        height,
        mask,
        frame,
    };
    Ok(fill(&view, out_frame, out_mask))
}
