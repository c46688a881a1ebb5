// Defective rows and columns, by one walk over the lines of the four planes: document 01, "Defective rows and columns".
#![tactic(auto)]

ghost use Rattle.std.specs.Prelude.{◌≡◌, ℕ, ◌+◌, ◌*◌, ◌<◌, ◌≤◌, length, get_or};
ghost use Rattle.laws.specs.Table.{tabulate};
ghost use Rattle.window.specs.View.{seen, one};
ghost use Rattle.window.specs.Walk.{walked};
ghost use Rattle.lines.specs.Lines.{rows, columns, before, after, defective, mark_at};
ghost use Rattle.lines.specs.Walk.{lined, laid, no_sums, sums_held, sums_pooled};
ghost use Rattle.lines.specs.Marks.{lines_verdict, lines_answer, paper_of, lines_paper, lines_buffer};

use plane::{PlaneBox, Sums};
use verdict::Refusal;
use window::Lines;

// What the lines around a line count and sum.
#[derive(Clone, Copy, Default)]
struct Pooled {
    count: u64,
    total: u64,
}

impl Pooled {
    // One line more.
    fn with(self, line: Sums) -> Pooled
        requires { (self.count ≤ 1048560) × (self.total ≤ 68719476720) }
        ensures value { (result.count ≡ self.count + line.count) × (result.total ≡ self.total + line.total) }
        ensures bound { (result.count ≤ self.count + 65535) × (result.total ≤ self.total + 4294967295) }
    {
        Pooled {
            count: self.count + u64::from(line.count),
            total: self.total + u64::from(line.total),
        }
    }
}

// A window's sides, and which lines of its planes a call asks of.
#[derive(Clone, Copy)]
struct Layout {
    lines: Lines,
    width: usize,
    height: usize,
}

impl Layout {
    // How many lines a plane has.
    fn count(self) -> usize
        ensures { result ≡ (laid self).count }
    {
        match self.lines {
            Lines::Rows => self.height / 2,
            Lines::Columns => self.width / 2,
        }
    }

    // Line l as a box of its plane's coordinates.
    fn line(self, l: usize) -> PlaneBox
        requires { l < 64 }
        ensures { result ≡ (laid self).line l }
    {
        match self.lines {
            Lines::Rows => PlaneBox {
                top: l,
                bottom: l + 1,
                left: 0,
                right: self.width / 2,
            },
            Lines::Columns => PlaneBox {
                top: 0,
                bottom: self.height / 2,
                left: l,
                right: l + 1,
            },
        }
    }
}

// Refusals 1, 2, 4, 5, 6 and 9, for a buffer of so many marks.
fn judge(
    layout: Layout,
    full_scale: u64,
    mask: &[u8],
    frame: &[u16],
    marks: usize,
) -> Result<(), Refusal>
    ensures { result ≡ lines_verdict (lined layout.lines) layout.width layout.height full_scale mask.now frame.now marks }
{
    let n = layout.count();
    let lengths = verdict::refuse_if(Refusal::Length, marks != n.saturating_mul(4));
    refusals::judge_frame(
        layout.width,
        layout.height,
        full_scale,
        Ok(()),
        mask,
        frame,
        lengths,
    )?;
    verdict::refuse_if(Refusal::TooSmall, n < 9)
}

// What every line counts and sums, the n lines of one plane after those of another: once, before any line is compared.
fn gather(layout: Layout, n: usize, mask: &[u8], frame: &[u16]) -> [Sums; 256]
    requires { (0 < n) × (n ≤ 64) }
    ensures { (i : ℕ) → i < 4 * n → get_or result i no_sums ≡ sums_held (laid layout) layout.width layout.height n mask.now frame.now i }
{
    let mut held = [Sums { count: 0, total: 0 }; 256];
    for (i, line) in held[..4 * n].iter_mut().enumerate() {
        let within = layout.line(i % n);
        *line = plane::box_sums(layout.width, layout.height, i / n, within, mask, frame);
    }
    held
}

// The line j before l.
#[tactic(auto, unfolding(crate::specs::Lines::before))]
fn line_before(l: usize, j: usize) -> usize
    ensures { result ≡ before l j }
{
    l.abs_diff(j)
}

// The line j after l, of n. That n is from 9 to 64 is asked of the three functions that take it: a type for it would stand in every index.
#[tactic(auto, unfolding(crate::specs::Lines::after))]
fn line_after(n: usize, l: usize, j: usize) -> usize
    requires { (9 ≤ n) × (n ≤ 64) × (l < n) × (j ≤ 8) }
    ensures { result ≡ after n l j }
{
    let at = l + j;
    if at < n { at } else { 2 * n - 2 - at }
}

// The eight lines before l and the eight after it, of a plane whose n lines are held from `first` on.
#[tactic(auto, unfolding(crate::specs::Lines::before, crate::specs::Lines::after))]
fn pool(held: &[Sums; 256], n: usize, first: usize, l: usize) -> Pooled
    requires { (9 ≤ n) × (n ≤ 64) × (l < n) × (first + n ≤ 256) }
    ensures value { result ≡ sums_pooled n (λ (m : ℕ). get_or held.now (first + m) no_sums) l }
    ensures bound { (result.count ≤ 1048560) × (result.total ≤ 68719476720) }
{
    let mut around = Pooled::default();
    for j in 1..9 {
        let before = held[first + line_before(l, j)];
        let after = held[first + line_after(n, l, j)];
        around = around.with(before).with(after);
    }
    around
}

// Whether a line is defective beside the lines around it.
#[tactic(auto, unfolding(crate::specs::Lines::defective))]
fn stands_out(line: Sums, around: Pooled) -> bool
    requires { (around.count ≤ 1048560) × (around.total ≤ 68719476720) }
    ensures { result ≡ defective line.count line.total around.count around.total }
{
    let c = u64::from(line.count);
    let s = u64::from(line.total);
    let far = 5 * c * around.count < 2 * (s * around.count).abs_diff(around.total * c);
    0 < c && 0 < around.count && far
}

// Every mark, the n lines of one plane after those of another.
fn mark(layout: Layout, n: usize, mask: &[u8], frame: &[u16], marks: &mut [u8])
    requires { (n ≡ (laid layout).count) × (9 ≤ n) × (n ≤ 64) × (length marks.old ≡ 4 * n) × (0 < walked layout.width layout.height (length mask.now)) × (0 < walked layout.width layout.height (length frame.now)) }
    ensures { marks.new ≡ tabulate (length marks.old) (mark_at (laid layout) layout.width layout.height (one mask.now) (seen mask.now frame.now)) }
{
    let held = gather(layout, n, mask, frame);
    for (i, mark) in marks.iter_mut().enumerate() {
        let l = i % n;
        *mark = u8::from(stands_out(held[i], pool(&held, n, i - l, l)));
    }
}

#[tactic(auto, unfolding(crate::specs::Marks::lines_answer, crate::specs::Marks::lines_paper, crate::specs::Marks::lines_buffer))]
fn defective_by(
    layout: Layout,
    full_scale: u64,
    mask: &[u8],
    frame: &[u16],
    marks: &mut [u8],
) -> Result<(), Refusal>
    ensures answer { result ≡ lines_answer (lined layout.lines) layout.width layout.height full_scale mask.now frame.now (length marks.old) }
    ensures paper { paper_of result ≡ lines_paper (lined layout.lines) layout.width layout.height full_scale mask.now frame.now (length marks.old) }
    ensures buffer { marks.new ≡ lines_buffer (lined layout.lines) layout.width layout.height full_scale mask.now frame.now marks.old }
{
    judge(layout, full_scale, mask, frame, marks.len())?;
    mark(layout, layout.count(), mask, frame, marks);
    Ok(())
}

pub fn defective_rows(
    width: usize,
    height: usize,
    full_scale: u64,
    mask: &[u8],
    frame: &[u16],
    marks: &mut [u8],
) -> Result<(), Refusal>
    ensures answer { result ≡ lines_answer rows width height full_scale mask.now frame.now (length marks.old) }
    ensures paper { paper_of result ≡ lines_paper rows width height full_scale mask.now frame.now (length marks.old) }
    ensures buffer { marks.new ≡ lines_buffer rows width height full_scale mask.now frame.now marks.old }
{
    let layout = Layout {
        lines: Lines::Rows,
        width,
        height,
    };
    defective_by(layout, full_scale, mask, frame, marks)
}

pub fn defective_columns(
    width: usize,
    height: usize,
    full_scale: u64,
    mask: &[u8],
    frame: &[u16],
    marks: &mut [u8],
) -> Result<(), Refusal>
    ensures answer { result ≡ lines_answer columns width height full_scale mask.now frame.now (length marks.old) }
    ensures paper { paper_of result ≡ lines_paper columns width height full_scale mask.now frame.now (length marks.old) }
    ensures buffer { marks.new ≡ lines_buffer columns width height full_scale mask.now frame.now marks.old }
{
    let layout = Layout {
        lines: Lines::Columns,
        width,
        height,
    };
    defective_by(layout, full_scale, mask, frame, marks)
}
