// The block table of colour shading, made and amended: document 02, j.
#![tactic(auto)]

ghost use Rattle.std.specs.Prelude.{false, [], ◌∷◌, ◌≡◌, ◌+◌, ◌*◌, ◌/◌, ◌≤◌, ◌<◌, length};
ghost use Rattle.laws.specs.Table.{held};
ghost use Rattle.window.specs.Shape.{bad_sides, sites_of};
ghost use Rattle.window.specs.View.{seen, one};
ghost use Rattle.plane.specs.Plane.{plane_of, plane_row, plane_column};
ghost use Rattle.blocks.specs.Areas.{blocks_of, areas_of, area_of, area_sites, block_of, entries_of, entry_at, in_box, table_lengths};
ghost use Rattle.blocks.specs.Table.{entry_sums, table_verdict, table_answer, paper_of, table_paper, table_totals, table_counts};
ghost use Rattle.blocks.specs.Recode.{bad_codes, over_either, site_verdict, recode_verdict, recoded, amend, amended_totals, amended_counts, recode_answer, recode_paper, recode_mask, recode_totals, recode_counts};
ghost use Rattle.blocks.specs.Walk.{stores, block_entry, centre_entry, Before, amended_at};

use plane::{Pair, PlaneBox};
use verdict::Refusal;
use window::View;

// How many blocks a plane has. Sides that no window has make none, so their product is never formed.
pub fn blocks(width: usize, height: usize) -> usize
    ensures { (result ≡ blocks_of width height) × (result ≤ 20) }
{
    if window::bad_sides(width, height) {
        return 0;
    }
    (width / 2 / 16) * (height / 2 / 12)
}

// How many sites an area has.
pub fn area_sites(width: usize, height: usize, k: usize) -> u32
    ensures { result ≡ area_sites width height k }
{
    if k < blocks(width, height) { 192 } else { 768 }
}

// Refusal 4 of a table's totals and counts.
pub fn table_lengths(
    width: usize,
    height: usize,
    totals: usize,
    counts: usize,
) -> Result<(), Refusal>
    ensures { result ≡ table_lengths width height totals counts }
{
    let entries = 4 * (blocks(width, height) + 1);
    verdict::refuse_if(Refusal::Length, totals != entries)?;
    verdict::refuse_if(Refusal::Length, counts != entries)
}

fn block(width: usize, k: usize) -> PlaneBox
    requires { (0 < width / 2 / 16) × (k ≤ 20) }
    ensures { result ≡ block_of width k }
{
    let across = width / 2 / 16;
    let top = 12 * (k / across);
    let left = 16 * (k % across);
    PlaneBox {
        top,
        bottom: top + 12,
        left,
        right: left + 16,
    }
}

// Area k of a plane: a block, or after them the centre.
fn area(width: usize, height: usize, k: usize) -> PlaneBox
    ensures { result ≡ area_of width height k }
{
    if k < blocks(width, height) {
        block(width, k)
    } else {
        colour::centre(width, height)
    }
}

// The four planes' totals of an area, and their counts. One by one: by `map` over the four, the proof of `sum_areas` did not close.
fn totals_of(upper: Pair, lower: Pair) -> [u32; 4]
    ensures { result ≡ upper.even.total ∷ upper.odd.total ∷ lower.even.total ∷ lower.odd.total ∷ [] }
{
    [
        upper.even.total,
        upper.odd.total,
        lower.even.total,
        lower.odd.total,
    ]
}

fn counts_of(upper: Pair, lower: Pair) -> [u32; 4]
    ensures { result ≡ upper.even.count ∷ upper.odd.count ∷ lower.even.count ∷ lower.odd.count ∷ [] }
{
    [
        u32::from(upper.even.count),
        u32::from(upper.odd.count),
        u32::from(lower.even.count),
        u32::from(lower.odd.count),
    ]
}

// Stores the entries of area k, one of each plane: by the plane, which is the place in both.
#[tactic(auto, unfolding(crate::specs::Walk::stores))]
fn store(entries: &mut [u32], areas: usize, k: usize, of_planes: [u32; 4])
    requires { (k < areas) × (length entries.old ≡ 4 * areas) }
    ensures { entries.new ≡ stores entries.old areas k of_planes 4 }
{
    for plane in 0..4 {
        entries[plane * areas + k] = of_planes[plane];
    }
}

// Every entry of the table, totals and counts in two lists as C lends them: area after area, all four planes of it at once.
fn sum_areas(view: &View, totals: &mut [u32], counts: &mut [u32])
    requires { (length totals.old ≡ entries_of view.now.width view.now.height) × (length counts.old ≡ entries_of view.now.width view.now.height) }
    ensures totals_after { totals.new ≡ entry_sums view.now.width view.now.height (seen view.now.mask.now view.now.frame.now) }
    ensures counts_after { counts.new ≡ entry_sums view.now.width view.now.height (one view.now.mask.now) }
{
    let (width, height) = (view.width, view.height);
    let areas = blocks(width, height) + 1;
    for k in 0..areas {
        let within = area(width, height, k);
        let upper = plane::pair_sums(width, height, 0, within, view.mask, view.frame);
        let lower = plane::pair_sums(width, height, 1, within, view.mask, view.frame);
        store(totals, areas, k, totals_of(upper, lower));
        store(counts, areas, k, counts_of(upper, lower));
    }
}

// Refusals 1, 2, 4, 5, 6 and 9, for a table of so many totals and counts.
#[tactic(auto, unfolding(crate::specs::Table::table_verdict))]
fn judge_table(
    width: usize,
    height: usize,
    full_scale: u64,
    mask: &[u8],
    frame: &[u16],
    totals: usize,
    counts: usize,
) -> Result<(), Refusal>
    ensures { result ≡ table_verdict width height full_scale mask.now frame.now totals counts }
{
    let lengths = table_lengths(width, height, totals, counts);
    refusals::judge_frame(width, height, full_scale, Ok(()), mask, frame, lengths)?;
    verdict::refuse_if(Refusal::TooSmall, colour::too_small(width, height))
}

// Makes the table of a mask and a frame.
#[tactic(auto, using(crate::proofs::Judged::tabling), unfolding(crate::specs::Table::table_answer, crate::specs::Table::table_paper, crate::specs::Table::table_totals, crate::specs::Table::table_counts))]
pub fn shading_table(
    width: usize,
    height: usize,
    full_scale: u64,
    mask: &[u8],
    frame: &[u16],
    totals: &mut [u32],
    counts: &mut [u32],
) -> Result<(), Refusal>
    ensures answer { result ≡ table_answer width height full_scale mask.now frame.now (length totals.old) (length counts.old) }
    ensures paper { paper_of result ≡ table_paper width height full_scale mask.now frame.now (length totals.old) (length counts.old) }
    ensures totals { totals.new ≡ table_totals width height full_scale mask.now frame.now totals.old counts.old }
    ensures counts { counts.new ≡ table_counts width height full_scale mask.now frame.now totals.old counts.old }
{
    judge_table(
        width,
        height,
        full_scale,
        mask,
        frame,
        totals.len(),
        counts.len(),
    )?;
    let view = View {
        width,
        height,
        mask,
        frame,
    };
    sum_areas(&view, totals, counts);
    Ok(())
}

#[tactic(auto, unfolding(crate::specs::Recode::bad_codes))]
fn bad_codes(old: u8, new: u64) -> bool
    ensures { result ≡ bad_codes old new }
{
    3 < old || 3 < new
}

#[tactic(auto, unfolding(crate::specs::Recode::over_either))]
fn over_either(full_scale: u64, old: u8, new: u64, sample: u16) -> bool
    ensures { result ≡ over_either full_scale old new sample }
{
    ((old == 0) | (new == 0)) & (full_scale < u64::from(sample))
}

// Refusals 5 and 6 of the site: it is the place of both, and 6 counts its one sample.
fn judge_site(full_scale: u64, site: usize, old: u8, new: u64, sample: u16) -> Result<(), Refusal>
    ensures { result ≡ site_verdict full_scale site old new sample }
{
    verdict::refuse_if(Refusal::Code(site), bad_codes(old, new))?;
    verdict::refuse_if(
        Refusal::Over(site, 1),
        over_either(full_scale, old, new, sample),
    )
}

// Refusals 1 to 6 and 9, for a table of so many totals and counts; what the call is handed in goes on one by one.
#[tactic(auto, unfolding(crate::specs::Recode::recode_verdict))]
fn judge_recode(
    width: usize,
    height: usize,
    full_scale: u64,
    site: usize,
    code: u64,
    mask: &[u8],
    frame: &[u16],
    totals: usize,
    counts: usize,
) -> Result<(), Refusal>
    ensures { result ≡ recode_verdict width height full_scale site code mask.now frame.now totals counts }
{
    refusals::shape(width, height, full_scale)?;
    verdict::refuse_if(Refusal::Parameter, window::sites(width, height) <= site)?;
    refusals::length(width, height, mask.len())?;
    refusals::length(width, height, frame.len())?;
    table_lengths(width, height, totals, counts)?;
    judge_site(full_scale, site, mask[site], code, frame[site])?;
    verdict::refuse_if(Refusal::TooSmall, colour::too_small(width, height))
}

fn in_box(within: PlaneBox, row: usize, column: usize) -> bool
    ensures { result ≡ in_box within row column }
{
    (within.top..within.bottom).contains(&row) && (within.left..within.right).contains(&column)
}

// A site of a legal window.
#[derive(Clone, Copy)]
struct Site {
    width: usize,
    height: usize,
    site: usize,
    ghost legal: { bad_sides width height ≡ false },
    ghost inside: { site < sites_of width height },
}

impl Site {
    // Its plane, and its row and column there.
    #[tactic(auto, using(crate::proofs::Areas::some_width))]
    fn plane(self) -> usize
        ensures { (result ≡ plane_of self.width self.site) × (result < 4) }
    {
        2 * (self.site / self.width % 2) + self.site % self.width % 2
    }

    #[tactic(auto, using(crate::proofs::Areas::some_width))]
    fn row(self) -> usize
        ensures { result ≡ plane_row self.width self.site }
    {
        self.site / self.width / 2
    }

    #[tactic(auto, using(crate::proofs::Areas::some_width))]
    fn column(self) -> usize
        ensures { result ≡ plane_column self.width self.site }
    {
        self.site % self.width / 2
    }

    // The entry of an area of its plane.
    fn entry(self, area: usize) -> usize
        requires { area < areas_of self.width self.height }
        ensures { (result ≡ entry_at self.width self.height (plane_of self.width self.site) area) × (result < entries_of self.width self.height) }
    {
        self.plane() * (blocks(self.width, self.height) + 1) + area
    }

    // The entry of the block in which it lies, if it lies in one.
    #[tactic(auto, using(crate::proofs::Entries::in_grid), unfolding(crate::specs::Walk::block_entry))]
    fn block_entry(self) -> Option<usize>
        ensures place { result ≡ block_entry self.width self.height self.site }
        ensures in_table { Before result (entries_of self.width self.height) }
    {
        let row = self.row() / 12;
        let column = self.column() / 16;
        let across = self.width / 2 / 16;
        if (row < self.height / 2 / 12) & (column < across) {
            Some(self.entry(row * across + column))
        } else {
            None
        }
    }

    // The entry of its plane's centre, if it lies in it.
    #[tactic(auto, unfolding(crate::specs::Walk::centre_entry))]
    fn centre_entry(self) -> Option<usize>
        ensures place { result ≡ centre_entry self.width self.height self.site }
        ensures in_table { Before result (entries_of self.width self.height) }
    {
        let within = colour::centre(self.width, self.height);
        if in_box(within, self.row(), self.column()) {
            Some(self.entry(blocks(self.width, self.height)))
        } else {
            None
        }
    }
}

// An entry with `new` in place of `old`, modulo 2^32.
#[tactic(auto, unfolding(crate::specs::Recode::amend))]
fn amend(old: u32, new: u32, entry: u32) -> u32
    ensures { result ≡ amend old new entry }
{
    entry.wrapping_add(new).wrapping_sub(old)
}

// Amends the entry at a place, if there is one.
fn amend_entry(entries: &mut [u32], at: Option<usize>, old: u32, new: u32)
    requires { Before at (length entries.old) }
    ensures { entries.new ≡ amended_at at old new entries.old }
{
    if let Some(at) = at {
        entries[at] = amend(old, new, entries[at]);
    }
}

// Amends a block's entry, and then a centre's.
fn amend_areas(entries: &mut [u32], block: Option<usize>, centre: Option<usize>, old: u32, new: u32)
    requires { Before block (length entries.old) × Before centre (length entries.old) }
    ensures { entries.new ≡ amended_at centre old new (amended_at block old new entries.old) }
{
    amend_entry(entries, block, old, new);
    amend_entry(entries, centre, old, new);
}

// Writes the code at the site, and amends the table.
fn recode(
    at: Site,
    code: u8,
    mask: &mut [u8],
    frame: &[u16],
    totals: &mut [u32],
    counts: &mut [u32],
)
    requires mask_len { (length mask.old ≡ sites_of at.width at.height) × (length frame.now ≡ sites_of at.width at.height) }
    requires totals_len { (length totals.old ≡ entries_of at.width at.height) × (length counts.old ≡ entries_of at.width at.height) }
    ensures mask_after { mask.new ≡ recoded at.site code mask.old }
    ensures totals_after { totals.new ≡ amended_totals at.width at.height at.site code mask.old frame.now totals.old }
    ensures counts_after { counts.new ≡ amended_counts at.width at.height at.site code mask.old counts.old }
{
    let old = mask[at.site];
    let sample = frame[at.site];
    let was = u32::from(window::seen_at(old, sample));
    let is = u32::from(window::seen_at(code, sample));
    let block = at.block_entry();
    let centre = at.centre_entry();
    amend_areas(totals, block, centre, was, is);
    amend_areas(
        counts,
        block,
        centre,
        window::one_at(old),
        window::one_at(code),
    );
    mask[at.site] = code;
}

// Changes one mask code, and amends the table made under the old mask. Its numbers and buffers come one by one, as C hands them in.
#[tactic(auto, using(crate::proofs::Judged::recoding), unfolding(crate::specs::Recode::recode_answer, crate::specs::Recode::recode_paper, crate::specs::Recode::recode_mask, crate::specs::Recode::recode_totals, crate::specs::Recode::recode_counts))]
pub fn shading_recode(
    width: usize,
    height: usize,
    full_scale: u64,
    site: usize,
    code: u64,
    mask: &mut [u8],
    frame: &[u16],
    totals: &mut [u32],
    counts: &mut [u32],
) -> Result<(), Refusal>
    ensures answer { result ≡ recode_answer width height full_scale site code mask.old frame.now (length totals.old) (length counts.old) }
    ensures paper { paper_of result ≡ recode_paper width height full_scale site code mask.old frame.now (length totals.old) (length counts.old) }
    ensures mask { mask.new ≡ recode_mask width height full_scale site code mask.old frame.now (length totals.old) (length counts.old) }
    ensures totals { totals.new ≡ recode_totals width height full_scale site code mask.old frame.now totals.old counts.old }
    ensures counts { counts.new ≡ recode_counts width height full_scale site code mask.old frame.now totals.old counts.old }
{
    judge_recode(
        width,
        height,
        full_scale,
        site,
        code,
        mask,
        frame,
        totals.len(),
        counts.len(),
    )?;
    let at = Site {
        width,
        height,
        site,
    };
    recode(at, code as u8, mask, frame, totals, counts);
    Ok(())
}
