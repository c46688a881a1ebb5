// A window: its sides and full scale, its mask, and what is seen through it.
#![tactic(auto)]

ghost use Rattle.std.specs.Prelude.{false, cond, ◌≡◌, ◌≤◌, length};
ghost use Rattle.laws.specs.First.{some_to};
ghost use Rattle.laws.specs.Sum.{sum_to};
ghost use Rattle.window.specs.Shape.{bad_side, bad_sides, bad_scale, bad_count, sites_of};
ghost use Rattle.window.specs.Walk.{walked};
ghost use Rattle.window.specs.View.{surveyed, code_above, seen_at, one};

// Which lines of a window or a plane a call asks of.
#[derive(Clone, Copy)]
pub enum Lines {
    Rows,
    Columns,
}

#[tactic(auto, unfolding(crate::specs::Shape::bad_side))]
fn bad_side(side: usize) -> bool
    ensures { result ≡ bad_side side }
{
    side % 2 != 0 || !(2..=128).contains(&side)
}

#[tactic(auto, unfolding(crate::specs::Shape::bad_sides))]
pub fn bad_sides(width: usize, height: usize) -> bool
    ensures { result ≡ bad_sides width height }
{
    bad_side(width) || bad_side(height)
}

#[tactic(auto, unfolding(crate::specs::Shape::bad_scale))]
pub fn bad_scale(full_scale: u64) -> bool
    ensures { result ≡ bad_scale full_scale }
{
    !(1..=4095).contains(&full_scale)
}

#[tactic(auto, unfolding(crate::specs::Shape::bad_count))]
pub fn bad_count(frames: u64) -> bool
    ensures { result ≡ bad_count frames }
{
    !(1..=100).contains(&frames)
}

// How many sites a window has. Sides that no window has make none, so their product is never formed.
// Sides, full scale, mask and frame come one by one, as C hands them in and every definition takes them: a struct would put its name before each in every clause.
pub fn sites(width: usize, height: usize) -> usize
    ensures { (result ≡ sites_of width height) × (result ≤ 16384) }
{
    if bad_sides(width, height) {
        return 0;
    }
    height * width
}

// The sites that a buffer of this length lets be walked: the window's, where it has just as many, or none. A number and no Option: so it is promised.
pub fn walkable(width: usize, height: usize, long: usize) -> usize
    ensures { result ≡ walked width height long }
{
    let n = sites(width, height);
    if long == n { n } else { 0 }
}

// A value as its site's code lets it be taken: where that is not 0, the other.
pub fn if_surveyed<T: Copy>(code: u8, value: T, other: T) -> T
    ensures { result ≡ cond (surveyed code) value other }
{
    if code == 0 { value } else { other }
}

// A sample as its site's code lets it be seen.
#[tactic(auto, unfolding(crate::specs::View::seen_at))]
pub fn seen_at(code: u8, sample: u16) -> u16
    ensures { result ≡ seen_at code sample }
{
    if_surveyed(code, sample, 0)
}

// 1 as a site's code lets it be seen: what counts the surveyed sites.
#[tactic(auto, unfolding(crate::specs::View::seen_at))]
pub fn one_at(code: u8) -> u32
    ensures { (result ≡ seen_at code 1) × (result ≤ 1) }
{
    if_surveyed(code, 1, 0)
}

// A frame behind its mask, both of a legal window: what a call may walk once 1 and 4 have passed.
#[derive(Clone, Copy)]
pub struct View<'a> {
    pub width: usize,
    pub height: usize,
    pub mask: &'a [u8],
    pub frame: &'a [u16],
    ghost legal: { bad_sides width height ≡ false },
    ghost masked: { length mask.now ≡ sites_of width height },
    ghost framed: { length frame.now ≡ sites_of width height },
}

// How many sites of a mask are surveyed that has no more than a window: 16 bits count them in less time than 64 take.
fn surveyed_few(mask: &[u8]) -> u16
    requires { length mask.now ≤ 16384 }
    ensures { result ≡ sum_to (length mask.now) (one mask.now) }
{
    let mut count: u16 = 0;
    for code in mask {
        count += seen_at(*code, 1);
    }
    count
}

// How many sites are surveyed, of a mask that has the window's sites; any other is not walked.
pub fn surveyed(width: usize, height: usize, mask: &[u8]) -> u64
    ensures { result ≡ sum_to (walked width height (length mask.now)) (one mask.now) }
{
    if walkable(width, height, mask.len()) == 0 {
        return 0;
    }
    u64::from(surveyed_few(mask))
}

// Whether some code is above another: a walk with no way out, which takes far less time than a search for the place.
// Of codes alone: over a type parameter its clause would say `partial_cmp` where this one has <. Pattern noise walks its sums likewise.
pub fn some_code_above(code: u8, mask: &[u8]) -> bool
    ensures { result ≡ some_to (length mask.now) (code_above code mask.now) }
{
    let mut found = false;
    for other in mask {
        found |= code < *other;
    }
    found
}
