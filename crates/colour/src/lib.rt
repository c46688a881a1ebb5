// Colour ratios of the four planes' centres: document 01, "Colour ratios".
#![tactic(auto)]

ghost use Rattle.std.specs.Prelude.{◌≡◌, ℕ, ◌-◌, ◌/◌};
ghost use Rattle.plane.specs.Plane.{box_sums};
ghost use Rattle.colour.specs.Bayer.{mosaic_of, centres_of};
ghost use Rattle.colour.specs.Centre.{centre_of, too_small, some_empty};
ghost use Rattle.colour.specs.Colour.{above_black, not_above, ratio_of, lent_verdict, centres_verdict, colour_answer, paper_of, colour_paper};

use plane::{PlaneBox, Sums};
use verdict::Refusal;

// A colour over a green, unreduced.
#[derive(Clone, Copy)]
pub struct Ratio {
    pub numerator: i64,
    pub denominator: u64,
}

// R, B and Gb over Gr.
#[derive(Clone, Copy)]
pub struct Colours {
    pub r: Ratio,
    pub b: Ratio,
    pub gb: Ratio,
}

// One thing for each colour of the mosaic.
#[derive(Clone, Copy)]
pub struct ByColour<T> {
    pub r: T,
    pub gr: T,
    pub b: T,
    pub gb: T,
}

// The plane that has each colour.
pub type Mosaic = ByColour<usize>;

// What is seen in the centre of each colour's plane.
type Centres = ByColour<Sums>;

// The order is a number: C hands it in, and `mosaic_of` is promised of every number.
#[tactic(auto, unfolding(crate::specs::Bayer::mosaic_of))]
pub fn mosaic_of(bayer_order: u64) -> Mosaic
    ensures { result ≡ mosaic_of bayer_order }
{
    match bayer_order {
        0 => Mosaic {
            r: 0,
            gr: 1,
            b: 3,
            gb: 2,
        },
        1 => Mosaic {
            r: 1,
            gr: 0,
            b: 2,
            gb: 3,
        },
        2 => Mosaic {
            r: 3,
            gr: 2,
            b: 0,
            gb: 1,
        },
        _ => Mosaic {
            r: 2,
            gr: 3,
            b: 1,
            gb: 0,
        },
    }
}

// Where the centre begins on a side of a plane: half the rest, rounded down. A side that is too short leaves none.
fn begin(side: usize, long: usize) -> usize
    ensures { result ≡ (side - long) / 2 }
{
    side.saturating_sub(long) / 2
}

pub fn centre(width: usize, height: usize) -> PlaneBox
    ensures { result ≡ centre_of width height }
{
    let top = begin(height / 2, 24);
    let left = begin(width / 2, 32);
    PlaneBox {
        top,
        bottom: top + 24,
        left,
        right: left + 32,
    }
}

fn centres_seen(
    width: usize,
    height: usize,
    bayer_order: u64,
    mask: &[u8],
    frame: &[u16],
) -> Centres
    ensures { result ≡ centres_of bayer_order (λ (plane : ℕ). box_sums width height plane (centre_of width height) mask.now frame.now) }
{
    let planes = mosaic_of(bayer_order);
    let within = centre(width, height);
    let r = plane::box_sums(width, height, planes.r, within, mask, frame);
    let gr = plane::box_sums(width, height, planes.gr, within, mask, frame);
    let b = plane::box_sums(width, height, planes.b, within, mask, frame);
    let gb = plane::box_sums(width, height, planes.gb, within, mask, frame);
    Centres { r, gr, b, gb }
}

#[tactic(auto, unfolding(crate::specs::Centre::too_small))]
pub fn too_small(width: usize, height: usize) -> bool
    ensures { result ≡ too_small width height }
{
    width / 2 < 32 || height / 2 < 24
}

#[tactic(auto, unfolding(crate::specs::Centre::some_empty))]
fn some_empty(seen: Centres) -> bool
    ensures { result ≡ some_empty seen }
{
    seen.r.count == 0 || seen.gr.count == 0 || seen.b.count == 0 || seen.gb.count == 0
}

// T: the sum of sample minus black level.
pub fn above_black(black_level: u16, seen: Sums) -> i64
    ensures { result ≡ above_black black_level seen }
{
    i64::from(seen.total) - i64::from(u32::from(black_level) * u32::from(seen.count))
}

// Whether T is not above 0.
#[tactic(auto, using(crate::proofs::Totals::compared))]
pub fn not_above(black_level: u16, seen: Sums) -> bool
    ensures { result ≡ not_above (above_black black_level seen) }
{
    seen.total <= u32::from(black_level) * u32::from(seen.count)
}

// A colour over a green.
pub fn over(black_level: u16, colour: Sums, green: Sums) -> Ratio
    ensures { result ≡ ratio_of black_level colour green }
{
    let numerator = above_black(black_level, colour) * i64::from(green.count);
    let denominator = above_black(black_level, green) * i64::from(colour.count);
    Ratio {
        numerator,
        denominator: denominator.unsigned_abs(),
    }
}

// Refusals 9, 7 and 10, in that order.
fn judge_centres(
    width: usize,
    height: usize,
    black_level: u16,
    seen: Centres,
) -> Result<(), Refusal>
    ensures { result ≡ centres_verdict width height black_level seen }
{
    verdict::refuse_if(Refusal::TooSmall, too_small(width, height))?;
    verdict::refuse_if(Refusal::TooFew, some_empty(seen))?;
    verdict::refuse_if(Refusal::TooDark, not_above(black_level, seen.gr))
}

// Refusals 1 to 6, in their order.
#[tactic(auto, unfolding(crate::specs::Colour::lent_verdict))]
fn judge(
    width: usize,
    height: usize,
    full_scale: u64,
    black_level: u64,
    bayer_order: u64,
    mask: &[u8],
    frame: &[u16],
) -> Result<(), Refusal>
    ensures { result ≡ lent_verdict width height full_scale black_level bayer_order mask.now frame.now }
{
    let black = verdict::refuse_if(Refusal::Parameter, full_scale < black_level);
    let order = verdict::refuse_if(Refusal::Parameter, 3 < bayer_order);
    refusals::judge_frame(
        width,
        height,
        full_scale,
        black.and(order),
        mask,
        frame,
        Ok(()),
    )
}

#[tactic(auto, using(crate::proofs::Judged::lent, crate::proofs::Judged::told_paper, crate::proofs::Judged::lent_refused))]
pub fn colour_ratios(
    width: usize,
    height: usize,
    full_scale: u64,
    black_level: u64,
    bayer_order: u64,
    mask: &[u8],
    frame: &[u16],
) -> Result<Colours, Refusal>
    ensures answer { result ≡ colour_answer width height full_scale black_level bayer_order mask.now frame.now }
    ensures paper { paper_of result ≡ colour_paper width height full_scale black_level bayer_order mask.now frame.now }
{
    judge(
        width,
        height,
        full_scale,
        black_level,
        bayer_order,
        mask,
        frame,
    )?;
    let seen = centres_seen(width, height, bayer_order, mask, frame);
    // At most full scale, so it fits: `try_from` would ask of a refusal that cannot be.
    let black = black_level as u16;
    judge_centres(width, height, black, seen)?;
    Ok(Colours {
        r: over(black, seen.r, seen.gr),
        b: over(black, seen.b, seen.gr),
        gb: over(black, seen.gb, seen.gr),
    })
}
