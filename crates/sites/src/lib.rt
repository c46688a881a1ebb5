// Defective sites: document 01, "Defective sites", as document 02 g amends it, by running totals (02 b). The mask is read as it came in, and another is written.
#![tactic(auto)]

ghost use Rattle.std.specs.Prelude.{◌≡◌, cond, ◌+◌, ◌-◌, ◌*◌, ◌/◌, ◌%◌, ◌<◌, ◌≤◌, min, length};
ghost use Rattle.laws.specs.Table.{held, tabulate};
ghost use Rattle.window.specs.Shape.{sites_of};
ghost use Rattle.window.specs.View.{seen};
ghost use Rattle.sites.specs.Find.{used_threshold, far, marked, marked_at, found_count, find_verdict, find_answer, find_paper_of, find_paper, find_mask};
ghost use Rattle.sites.specs.Walk.{no_columns, Totals, Nested, NestedColumns, strip, Along, AlongRow, box_first, box_end, Rising, between, found_by, RowMarked};

use verdict::Refusal;
use window::View;

// Document 02 g: "Threshold 0 shall stand for 24".
const DEFAULT_THRESHOLD: u64 = 24;

// The 31 × 31 sites around one: so many rows and columns of its plane to each side.
const REACH: usize = 15;

#[tactic(auto, unfolding(crate::specs::Find::used_threshold))]
fn used_threshold(threshold: u64) -> u64
    ensures { result ≡ used_threshold threshold }
{
    if threshold == 0 {
        DEFAULT_THRESHOLD
    } else {
        threshold
    }
}

// A sample against the mean of `count` samples, by whole products. That t is at most 4,095, and below a width at most 128, is asked of each function that takes it:
// a type for one number is no plainer.
#[tactic(auto, unfolding(crate::specs::Find::far))]
fn is_far(t: u64, sample: u16, count: u32, total: u32) -> bool
    requires { t ≤ 4095 }
    ensures { result ≡ far t sample count total }
{
    t * u64::from(count) <= exact::apart(u64::from(sample) * u64::from(count), u64::from(total))
}

// Whether a surveyed site is newly found beside what is seen around it.
#[tactic(auto, unfolding(crate::specs::Walk::found_by, window::specs::View::seen_at))]
fn is_found(t: u64, code: u8, sample: u16, count: u32, total: u32) -> bool
    requires { t ≤ 4095 }
    ensures { cond result 1 0 ≡ found_by t code sample count total }
{
    code == 0 && is_far(t, sample, count, total)
}

// Codes are numbers, as C lends them.
fn code_of(code: u8, found: bool) -> u8
    ensures { result ≡ marked code (cond found 1 0) }
{
    if found { 2 } else { code }
}

// Running totals down the columns: at each of up to 256 sites of a pair of rows, how many sites are surveyed in the first `pairs` pairs, and their samples' sum.
// Two arrays and not one of pairs, here and along a row: `run` and `box_along` read one of them at a time.
#[derive(Drop)]
struct ColumnTotals {
    pairs: usize,
    counts: [u32; 256],
    totals: [u32; 256],
}

impl ColumnTotals {
    fn new() -> ColumnTotals
        ensures { result ≡ no_columns }
    {
        ColumnTotals {
            pairs: 0,
            counts: [0; 256],
            totals: [0; 256],
        }
    }

    // Adds the next pair of rows. By index, since one turn reads two buffers and writes two: zips of four are no plainer.
    #[tactic(auto, using(crate::proofs::Rows::pair_in))]
    fn add_pair(&mut self, view: &View)
        requires pair_in { self.old.pairs < view.now.height / 2 }
        requires totals { Totals view.now self.old }
        ensures { Totals view.now self.new × (self.new.pairs ≡ self.old.pairs + 1) }
    {
        let start = 2 * view.width * self.pairs;
        for k in 0..2 * view.width {
            let code = view.mask[start + k];
            self.counts[k] += window::one_at(code);
            self.totals[k] += u32::from(window::seen_at(code, view.frame[start + k]));
        }
        self.pairs += 1;
    }

    // Adds the pairs of rows to before `end`.
    fn add_pairs(&mut self, end: usize, view: &View)
        requires pairs_in { (self.old.pairs ≤ end) × (end ≤ view.now.height / 2) }
        requires totals { Totals view.now self.old }
        ensures { Totals view.now self.new × (self.new.pairs ≡ end) }
    {
        for _ in self.pairs..end {
            self.add_pair(view);
        }
    }
}

// Running totals along the row that begins at `start`, of what the totals down the columns differ by; each column parity by itself.
fn run(width: usize, start: usize, above: &[u32; 256], below: &[u32; 256], along: &mut [u32; 130])
    requires { (width ≤ 128) × (start + width ≤ 2 * width) × Nested width above.now below.now }
    ensures { Along width (strip above.now below.now start) along.new }
{
    along[0] = 0;
    along[1] = 0;
    // By index: each total adds to the one two before it.
    for x in 0..width {
        along[2 + x] = along[x] + (below[start + x] - above[start + x]);
    }
}

// The column where the box around column x begins (by `saturating_sub` of half the column, as of rows, a search takes longer) ..
fn box_first(x: usize) -> usize
    ensures { result ≡ box_first x }
{
    if x < 2 * REACH { x % 2 } else { x - 2 * REACH }
}

// .. and the first of its parity past it.
fn box_end(width: usize, x: usize) -> usize
    requires { (width ≤ 128) × (width % 2 ≡ 0) × (x < width) }
    ensures { result ≡ box_end width x }
{
    (x + 2 * (REACH + 1)).min(width + x % 2)
}

// The sum over the box around column x, by totals along the row.
fn box_along(width: usize, x: usize, along: &[u32; 130]) -> u32
    requires { (width ≤ 128) × (width % 2 ≡ 0) × (x < width) × Rising width along.now }
    ensures { result ≡ between width (held along.now) x }
{
    along[box_end(width, x)] - along[box_first(x)]
}

// Running totals along a row: each parity of its columns has one total more than columns.
#[derive(Drop)]
struct RowTotals {
    counts: [u32; 130],
    totals: [u32; 130],
}

impl RowTotals {
    // Takes them along row y, of what the totals down the columns differ by.
    fn run(&mut self, width: usize, y: usize, above: &ColumnTotals, below: &ColumnTotals)
        requires { (width ≤ 128) × NestedColumns width above.now below.now }
        ensures { AlongRow width above.now below.now y self.new }
    {
        let start = y % 2 * width;
        run(width, start, &above.counts, &below.counts, &mut self.counts);
        run(width, start, &above.totals, &below.totals, &mut self.totals);
    }

    // Marks row y by them, and answers how many of its sites are newly found. By index, as each site has a box of its own.
    #[tactic(auto, using(crate::proofs::Rows::row_in))]
    fn mark(&self, y: usize, t: u64, view: &View, out: &mut [u8]) -> u64
        requires row_in { (y < view.now.height) × (t ≤ 4095) × (length out.old ≡ sites_of view.now.width view.now.height) }
        requires rising { Rising view.now.width self.now.counts × Rising view.now.width self.now.totals }
        ensures { RowMarked view.now t self.now y result out.old out.new }
    {
        let width = view.width;
        let start = y * width;
        let mut found = 0;
        for x in 0..width {
            let code = view.mask[start + x];
            let count = box_along(width, x, &self.counts);
            let total = box_along(width, x, &self.totals);
            let newly = is_found(t, code, view.frame[start + x], count, total);
            out[start + x] = code_of(code, newly);
            found += u64::from(newly);
        }
        found
    }
}

// Every site's code, and how many sites are newly found: row after row, by totals down the columns to before a row's boxes and to their end.
fn mark(view: &View, t: u64, out: &mut [u8]) -> u64
    requires { (t ≤ 4095) × (length out.old ≡ sites_of view.now.width view.now.height) }
    ensures value { result ≡ found_count view.now.width view.now.height t view.now.mask.now (seen view.now.mask.now view.now.frame.now) }
    ensures out_after { out.new ≡ tabulate (sites_of view.now.width view.now.height) (marked_at view.now.width view.now.height t view.now.mask.now (seen view.now.mask.now view.now.frame.now)) }
{
    let mut above = ColumnTotals::new();
    let mut below = ColumnTotals::new();
    let mut along = RowTotals {
        counts: [0; 130],
        totals: [0; 130],
    };
    let mut found = 0;
    for y in 0..view.height {
        above.add_pairs((y / 2).saturating_sub(REACH), view);
        below.add_pairs((y / 2 + REACH + 1).min(view.height / 2), view);
        along.run(view.width, y, &above, &below);
        found += along.mark(y, t, view, out);
    }
    found
}

// Refusals 1 to 6 of a search, of the length of the mask that is written.
#[tactic(auto, unfolding(crate::specs::Find::find_verdict))]
fn judge_find(
    width: usize,
    height: usize,
    full_scale: u64,
    threshold: u64,
    mask: &[u8],
    frame: &[u16],
    out: usize,
) -> Result<(), Refusal>
    ensures { result ≡ find_verdict width height full_scale threshold mask.now frame.now out }
{
    let range = verdict::refuse_if(Refusal::Parameter, 4095 < threshold);
    let lengths = refusals::length(width, height, out);
    refusals::judge_frame(width, height, full_scale, range, mask, frame, lengths)
}

#[tactic(auto, using(crate::proofs::Finds::used_few, crate::proofs::Accepts::find_accepted), unfolding(crate::specs::Find::find_answer, crate::specs::Find::find_paper, crate::specs::Find::find_mask))]
pub fn find_defects(
    width: usize,
    height: usize,
    full_scale: u64,
    threshold: u64,
    mask: &[u8],
    frame: &[u16],
    out_mask: &mut [u8],
) -> Result<u64, Refusal>
    ensures answer { result ≡ find_answer width height full_scale threshold mask.now frame.now (length out_mask.old) }
    ensures paper { find_paper_of result ≡ find_paper width height full_scale threshold mask.now frame.now (length out_mask.old) }
    ensures buffer { out_mask.new ≡ find_mask width height full_scale threshold mask.now frame.now out_mask.old }
{
    judge_find(
        width,
        height,
        full_scale,
        threshold,
        mask,
        frame,
        out_mask.len(),
    )?;
    let view = View {
        width,
        height,
        mask,
        frame,
    };
    Ok(mark(&view, used_threshold(threshold), out_mask))
}
