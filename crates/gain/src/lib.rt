// The gain of a camera by photon transfer: document 02, e.
#![tactic(auto)]

ghost use Rattle.std.specs.Prelude.{◌≡◌, ◌||◌, ◌≤◌, ◌<◌, ◌^◌, nat_abs, length, map, IfOk};
ghost use Rattle.exact.specs.Quotient.{signed_quotient};
ghost use Rattle.gain.specs.Gain.{out_of_limits, bad_length, bad_ends, too_large, curve_of, point_of, curve_of_rows, transfer_answer, paper_of, transfer_paper};
ghost use Rattle.gain.specs.Walk.{is_chosen, Room, summed, topped, with_point, fit_of, ConvertsBy, parts_of, parts_verdict, measured_of, walked_answer};

use verdict::Refusal;

// One exposure of a camera: mean and variance in sixteenths, of a grey level and of one squared. Exposure is the caller's own.
#[derive(Clone, Copy)]
pub struct Point {
    pub exposure: u64,
    pub mean: u64,
    pub variance: u64,
}

// A point that lies as a row of three numbers, exposure, mean and variance: what C lends.
impl From<[u64; 3]> for Point {
    ghost from_gives = { λ row point. point ≡ point_of row };

    fn from(row: [u64; 3]) -> Point {
        Point {
            exposure: row[0],
            mean: row[1],
            variance: row[2],
        }
    }
}

// The slope of variance against mean: its two parts, unreduced, and their quotient, grey levels per electron; and the place of the greatest variance.
#[derive(Clone, Copy)]
pub struct Gain {
    pub numerator: i64,
    pub denominator: u64,
    pub slope: f64,
    pub saturation: usize,
}

// Sums over the chosen points, x being the mean and y the variance. That they have room is asked of a function, and is no ghost field: it depends on how many points they are of.
#[derive(Clone, Copy, Default)]
struct Sums {
    x: u64,
    y: u64,
    xy: u64,
    xx: u64,
}

// The greatest variance so far, and its first place.
#[derive(Clone, Copy, Default)]
struct Peak {
    top: u64,
    place: usize,
}

// What is known after some points of a list.
#[derive(Clone, Copy, Default)]
struct Fit {
    sums: Sums,
    peak: Peak,
}

// The places from which and to which, both included, the points of a list are chosen.
#[derive(Clone, Copy)]
struct Ends {
    first: usize,
    last: usize,
    ghost forward: { first ≤ last },
}

impl Ends {
    // By one comparison: with `contains`, which makes two, 64 points take 1.2 times as long.
    fn hold(self, i: usize) -> bool
        ensures { result ≡ is_chosen self.first self.last i }
    {
        i.wrapping_sub(self.first) <= self.last - self.first
    }
}

// The slope's two parts, under a name of their own: they are judged before they are a slope.
#[derive(Clone, Copy)]
struct Parts {
    numerator: i64,
    denominator: u64,
}

// A list has at most so many points.
const MOST_POINTS: usize = 64;

// Sixteenths of the greatest grey level, 4,095.
const MOST_MEAN: u64 = 65520;

// 2 ^ 28 sixteenths.
const MOST_VARIANCE: u64 = 0x1000_0000;

#[tactic(auto, unfolding(crate::specs::Gain::out_of_limits))]
fn out_of_limits(p: Point) -> bool
    ensures { result ≡ out_of_limits p.mean p.variance }
{
    MOST_MEAN < p.mean || MOST_VARIANCE < p.variance
}

// Where the place is chosen, the sums with this point: a bool, for two cases of one leaf.
fn with_sums(t: Sums, x: u64, y: u64, chosen: bool) -> Sums
    requires room { Room 64 t }
    requires x_bound { (x ≤ 65520) × (y ≤ 268435456) }
    ensures { result ≡ summed t x y chosen }
{
    if chosen {
        Sums {
            x: t.x + x,
            y: t.y + y,
            xy: t.xy + x * y,
            xx: t.xx + x * x,
        }
    } else {
        t
    }
}

fn with_peak(peak: Peak, y: u64, i: usize) -> Peak
    ensures { result ≡ topped peak y i }
{
    if peak.top < y {
        Peak { top: y, place: i }
    } else {
        peak
    }
}

// One point more, at place i: 3 where it is out of limits, so that no sum can overflow.
#[tactic(auto, unfolding(crate::specs::Walk::with_point))]
fn with_point(s: Fit, p: Point, i: usize, ends: Ends) -> Result<Fit, Refusal>
    requires { Room 64 s.sums }
    ensures { result ≡ with_point s p.mean p.variance i ends.first ends.last }
{
    verdict::refuse_if(Refusal::Parameter, out_of_limits(p))?;
    Ok(Fit {
        sums: with_sums(s.sums, p.mean, p.variance, ends.hold(i)),
        peak: with_peak(s.peak, p.variance, i),
    })
}

// The one walk over the whole list, of what converts to points.
fn walk<P: Copy + Into<Point>>(points: &[P], ends: Ends) -> Result<Fit, Refusal>
    requires { length points.now ≤ 64 }
    ensures fit { (point : _) → ConvertsBy P.converts point → result ≡ fit_of (curve_of (map point points.now)) ends.first ends.last }
    ensures room { IfOk result (λ s. Room 64 s.sums) }
{
    let mut s = Fit::default();
    for (i, point) in points.iter().enumerate() {
        s = with_point(s, (*point).into(), i, ends)?;
    }
    Ok(s)
}

// 3, of a list of so many points.
#[tactic(auto, unfolding(crate::specs::Gain::bad_length))]
fn bad_length(count: usize) -> bool
    ensures { result ≡ bad_length count }
{
    !(1..=MOST_POINTS).contains(&count)
}

// 3, of the ends.
#[tactic(auto, unfolding(crate::specs::Gain::bad_ends))]
fn bad_ends(count: usize, first: usize, last: usize) -> bool
    ensures { result ≡ bad_ends count first last }
{
    count <= first || count <= last || last < first
}

// The slope's two parts, of m points. No product reaches 2^56.
fn parts_of(m: u64, t: Sums) -> Parts
    requires { (m ≤ 64) × Room 64 t }
    ensures { result ≡ parts_of m t }
{
    let up = m * t.xy;
    let down = t.x * t.y;
    Parts {
        numerator: up as i64 - down as i64,
        denominator: (m * t.xx).abs_diff(t.x * t.x),
    }
}

// 14, of a slope's parts.
#[tactic(auto, unfolding(crate::specs::Gain::too_large))]
fn too_large(p: Parts) -> bool
    ensures { result ≡ too_large p.numerator p.denominator }
{
    exact::LOSSLESS <= p.numerator.unsigned_abs() || exact::LOSSLESS <= p.denominator
}

// 7, 13 and 14: the denominator is 0 just where all means are equal.
fn judge_parts(m: usize, p: Parts) -> Result<(), Refusal>
    ensures { result ≡ parts_verdict m p }
{
    verdict::refuse_if(Refusal::TooFew, m < 2)?;
    verdict::refuse_if(Refusal::EqualMeans, p.denominator == 0)?;
    verdict::refuse_if(Refusal::TooLarge, too_large(p))
}

// z / q, rounded once: both become an f64 without loss.
fn slope_of(z: i64, q: u64) -> f64
    requires { (nat_abs z ≤ 2 ^ 53) × (0 < q) × (q ≤ 2 ^ 53) }
    ensures { result ≡ signed_quotient z q }
{
    (z as f64) / (q as f64)
}

// The figures of m points with these parts, or the refusal.
#[tactic(auto, unfolding(crate::specs::Walk::measured_of))]
fn measure(m: usize, p: Parts, place: usize) -> Result<Gain, Refusal>
    ensures { result ≡ measured_of m p place }
{
    judge_parts(m, p)?;
    Ok(Gain {
        numerator: p.numerator,
        denominator: p.denominator,
        slope: slope_of(p.numerator, p.denominator),
        saturation: place,
    })
}

// The same of a list of whatever converts to points: what both calls are.
#[tactic(auto, unfolding(crate::specs::Walk::walked_answer))]
fn transfer<P: Copy + Into<Point>>(points: &[P], first: usize, last: usize) -> Result<Gain, Refusal>
    ensures { (point : _) → ConvertsBy P.converts point → result ≡ walked_answer (curve_of (map point points.now)) first last }
{
    verdict::refuse_if(Refusal::Parameter, bad_length(points.len()))?;
    verdict::refuse_if(Refusal::Parameter, bad_ends(points.len(), first, last))?;
    let s = walk(points, Ends { first, last })?;
    let m = last - first + 1;
    measure(m, parts_of(m as u64, s.sums), s.peak.place)
}

// The gain of the chosen points, from first to last, and where the whole list saturates.
pub fn photon_transfer(points: &[Point], first: usize, last: usize) -> Result<Gain, Refusal>
    ensures answer { result ≡ transfer_answer (curve_of points.now) first last }
    ensures paper { paper_of result ≡ transfer_paper (curve_of points.now) first last }
{
    transfer(points, first, last)
}

// The same of points that lie as rows of three numbers, exposure, mean and variance: what C lends.
pub fn transfer_of_rows(rows: &[[u64; 3]], first: usize, last: usize) -> Result<Gain, Refusal>
    ensures answer { result ≡ transfer_answer (curve_of_rows rows.now) first last }
    ensures paper { paper_of result ≡ transfer_paper (curve_of_rows rows.now) first last }
{
    transfer(rows, first, last)
}
