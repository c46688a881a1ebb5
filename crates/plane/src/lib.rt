// The four planes of a window, and what is seen in a box of one, or of two that share their rows: document 01, "Defective sites", "Colour ratios"; document 02, j.
#![tactic(auto)]

ghost use Rattle.std.specs.Prelude.{◌≡◌, ℕ, ◌+◌, ◌*◌, ◌/◌, ◌%◌, ◌≤◌, ◌<◌, min, length, get_or};
ghost use Rattle.window.specs.Walk.{walked};
ghost use Rattle.plane.specs.Plane.{site_at, box_sums, pair_sums};
ghost use Rattle.plane.specs.Walk.{Inner, Few, More, Run, Runs};

// A box of a plane's coordinates: rows from top to before bottom, columns from left to before right.
#[derive(Clone, Copy)]
pub struct PlaneBox {
    pub top: usize,
    pub bottom: usize,
    pub left: usize,
    pub right: usize,
}

// How many sites are surveyed, and the sum of their samples: those of a plane fit.
#[derive(Clone, Copy)]
pub struct Sums {
    pub count: u16,
    pub total: u32,
}

// What is seen in a box of the two planes that share their rows: of even and of odd columns.
#[derive(Clone, Copy)]
pub struct Pair {
    pub even: Sums,
    pub odd: Sums,
}

// No site.
const NONE: Sums = Sums { count: 0, total: 0 };

// A run's sums with one site more.
#[tactic(auto, using(crate::proofs::Runs::seen_once))]
fn with_site(run: Sums, code: u8, sample: u16) -> Sums
    requires { Few 63 run }
    ensures { More code sample run result }
{
    Sums {
        count: run.count + window::seen_at(code, 1),
        total: run.total + u32::from(window::seen_at(code, sample)),
    }
}

// The sums of some runs with one run more.
fn with_run(runs: Sums, run: Sums) -> Sums
    requires { Few (64 * 63) runs × Few 64 run }
    ensures { (result.count ≡ runs.count + run.count) × (result.total ≡ runs.total + run.total) }
{
    Sums {
        count: runs.count + run.count,
        total: runs.total + run.total,
    }
}

// The sums of the run right of one, with the site right of `at` more, where PLANES is 2.
fn with_right<const PLANES: usize>(run: Sums, at: usize, mask: &[u8], frame: &[u16]) -> Sums
    requires few { Few 63 run }
    requires by_index { (at + PLANES ≤ length mask.now) × (length frame.now ≡ length mask.now) }
    ensures more { PLANES ≡ 2 → More (get_or mask.now (at + 1) 0) (get_or frame.now (at + 1) 0) run result }
    ensures few { (result.count ≤ run.count + 1) × (result.total ≤ run.total + 65535) }
{
    if PLANES == 2 {
        let right = at + 1;
        with_site(run, mask[right], frame[right])
    } else {
        run
    }
}

// A run of sites: those at start + step v, from v = first to before last; where PLANES is 2 those right of them too, which are read together in half the time.
// That PLANES is 1 or 2, and the buffers of one length, is asked of three functions: it is of a const and two slices, and a struct of these would be made for one call.
fn run_sums<const PLANES: usize>(
    start: usize,
    step: usize,
    first: usize,
    last: usize,
    mask: &[u8],
    frame: &[u16],
) -> Pair
    requires first_le_last { (1 ≤ PLANES) × (first ≤ last) × (last ≤ 64) × (length frame.now ≡ length mask.now) }
    requires by_index { (v : ℕ) → v < last → start + step * v + PLANES ≤ length mask.now }
    ensures even { Run mask.now frame.now (λ (v : ℕ). start + step * v) first last result.even }
    ensures odd { PLANES ≡ 2 → Run mask.now frame.now (λ (v : ℕ). start + step * v + 1) first last result.odd }
    ensures few { Few 64 result.even × Few 64 result.odd }
{
    let mut even = NONE;
    let mut odd = NONE;
    for v in first..last {
        let at = start + step * v;
        even = with_site(even, mask[at], frame[at]);
        odd = with_right::<PLANES>(odd, at, mask, frame);
    }
    Pair { even, odd }
}

// Runs side by side: the sites at start + stride u + step v, u and v a row and a column of a box; where PLANES is 2 those right of them too.
fn runs_sums<const PLANES: usize>(
    start: usize,
    stride: usize,
    step: usize,
    within: PlaneBox,
    mask: &[u8],
    frame: &[u16],
) -> Pair
    requires start_bound { (1 ≤ PLANES) × (start ≤ 129) × (stride ≤ 256) × (within.top ≤ within.bottom) × (within.bottom ≤ 64) × (within.left ≤ within.right) × (within.right ≤ 64) × (length frame.now ≡ length mask.now) }
    requires by_index { (u v : ℕ) → u < within.bottom → v < within.right → start + stride * u + step * v + PLANES ≤ length mask.now }
    ensures even { Runs mask.now frame.now (λ (u v : ℕ). start + stride * u + step * v) within.left within.right within.top within.bottom result.even }
    ensures odd { PLANES ≡ 2 → Runs mask.now frame.now (λ (u v : ℕ). start + stride * u + step * v + 1) within.left within.right within.top within.bottom result.odd }
    ensures few { result.even.count ≤ 4096 }
{
    let mut even = NONE;
    let mut odd = NONE;
    for u in within.top..within.bottom {
        let run = run_sums::<PLANES>(
            start + stride * u,
            step,
            within.left,
            within.right,
            mask,
            frame,
        );
        even = with_run(even, run.even);
        odd = with_run(odd, run.odd);
    }
    Pair { even, odd }
}

// A box that lies inside the plane, and where PLANES is 2 the same of the next: row by row, or column by column where it is too narrow for a row to be worth a run.
fn inner_sums<const PLANES: usize>(
    width: usize,
    height: usize,
    plane: usize,
    part: PlaneBox,
    mask: &[u8],
    frame: &[u16],
) -> Pair
    requires planes { (1 ≤ PLANES) × (plane % 2 + PLANES ≤ 2) }
    requires height_bound { (height ≤ 128) × (width ≤ 128) × (part.top ≤ part.bottom) × (part.bottom ≤ height / 2) × (part.left ≤ part.right) × (part.right ≤ width / 2) }
    requires mask_len { (length mask.now ≡ height * width) × (length frame.now ≡ height * width) }
    ensures even { Runs mask.now frame.now (site_at width plane) part.left part.right part.top part.bottom result.even }
    ensures odd { PLANES ≡ 2 → Runs mask.now frame.now (site_at width (plane + 1)) part.left part.right part.top part.bottom result.odd }
    ensures few { result.even.count ≤ 4096 }
{
    let row = plane / 2 % 2;
    let column = plane % 2;
    let start = row * width + column;
    let down = 2 * width;
    if part.right - part.left < 4 {
        let turned = PlaneBox {
            top: part.left,
            bottom: part.right,
            left: part.top,
            right: part.bottom,
        };
        runs_sums::<PLANES>(start, 2, down, turned, mask, frame)
    } else {
        runs_sums::<PLANES>(start, down, 2, part, mask, frame)
    }
}

// How many sites can be walked of both buffers: none where one has not the window's. A number, as the two that it is of.
fn walkable(width: usize, height: usize, mask: usize, frame: usize) -> usize
    ensures { result ≡ min (walked width height mask) (walked width height frame) }
{
    window::walkable(width, height, mask).min(window::walkable(width, height, frame))
}

// The part of a box that lies inside the plane.
fn inner(width: usize, height: usize, within: PlaneBox) -> PlaneBox
    ensures { Inner width height within result }
{
    let bottom = within.bottom.min(height / 2);
    let right = within.right.min(width / 2);
    PlaneBox {
        top: within.top.min(bottom),
        bottom,
        left: within.left.min(right),
        right,
    }
}

// What is seen in a box of a plane, which is cut off at the plane's edges; nothing in buffers that have not the window's sites.
pub fn box_sums(
    width: usize,
    height: usize,
    plane: usize,
    within: PlaneBox,
    mask: &[u8],
    frame: &[u16],
) -> Sums
    ensures value { result ≡ box_sums width height plane within mask.now frame.now }
    ensures count_bound { (result.count ≤ 4096) × (result.total ≤ 65535 * result.count) }
{
    if walkable(width, height, mask.len(), frame.len()) == 0 {
        return NONE;
    }
    let part = inner(width, height, within);
    inner_sums::<1>(width, height, plane, part, mask, frame).even
}

// The same of both planes whose rows have the parity of this one.
pub fn pair_sums(
    width: usize,
    height: usize,
    row: usize,
    within: PlaneBox,
    mask: &[u8],
    frame: &[u16],
) -> Pair
    ensures { result ≡ pair_sums width height row within mask.now frame.now }
{
    if walkable(width, height, mask.len(), frame.len()) == 0 {
        return Pair {
            even: NONE,
            odd: NONE,
        };
    }
    let part = inner(width, height, within);
    inner_sums::<2>(width, height, 2 * (row % 2), part, mask, frame)
}
