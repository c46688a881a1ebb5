// Colour shading: each block's ratios beside the centre's, by a block table: document 02, j.
#![tactic(auto)]

ghost use Rattle.std.specs.Prelude.{◌≡◌, ◌+◌, ◌*◌, ◌%◌, ◌^◌, ◌≤◌, ◌<◌, nat_abs, length};
ghost use Rattle.laws.specs.Table.{held};
ghost use Rattle.verdict.specs.Verdict.{number_of};
ghost use Rattle.plane.specs.Plane.{sums};
ghost use Rattle.blocks.specs.Areas.{blocks_of, areas_of, area_sites, entries_of};
ghost use Rattle.shading.specs.Shade.{unseen, too_dark, fails, judged_shade, shade_of, Written};
ghost use Rattle.shading.specs.Judge.{bad_limit, asked_verdict, blocks_length, lengths_verdict, impossible, impossible_in, lent_verdict, judge_verdict, planes_of, tint_of, shades_of, asked, lengths, judge_answer, paper_of, judge_paper, judge_numerators, judge_denominators, judge_refusals, judge_fails};
ghost use Rattle.shading.specs.Walk.{Whole, Possible, Stored};

use colour::Ratio;
use plane::Sums;
use verdict::Refusal;

// The numbers that are handed in with a table.
#[derive(Clone, Copy)]
struct Asked {
    width: usize,
    height: usize,
    full: u64,
    black: u64,
    order: u64,
    limit: u64,
}

impl Asked {
    fn new(width: usize, height: usize, full: u64, black: u64, order: u64, limit: u64) -> Asked
        ensures { result ≡ asked width height full black order limit }
    {
        Asked {
            width,
            height,
            full,
            black,
            order,
            limit,
        }
    }
}

// The lengths of the four buffers that are written.
#[derive(Clone, Copy)]
struct Lengths {
    numerators: usize,
    denominators: usize,
    refusals: usize,
    fails: usize,
}

impl Lengths {
    fn of(numerators: &[u64], denominators: &[u64], refusals: &[u8], fails: &[u8]) -> Lengths
        ensures { result ≡ lengths (length numerators.now) (length denominators.now) (length refusals.now) (length fails.now) }
    {
        Lengths {
            numerators: numerators.len(),
            denominators: denominators.len(),
            refusals: refusals.len(),
            fails: fails.len(),
        }
    }
}

// One thing for each of a ratio's two planes.
#[derive(Clone, Copy)]
struct OfRatio<T> {
    colour: T,
    green: T,
}

// The two planes.
type Planes = OfRatio<usize>;

// What is seen of them in one area.
type Tint = OfRatio<Sums>;

// A block and ratio: how far it is off the centre's, and whether that is above the limit.
#[derive(Clone, Copy)]
struct Shade {
    numerator: u64,
    denominator: u64,
    fail: bool,
}

// What is written of one that is refused.
const NO_SHADE: Shade = Shade {
    numerator: 0,
    denominator: 0,
    fail: false,
};

#[tactic(auto, unfolding(crate::specs::Judge::bad_limit))]
fn bad_limit(limit: u64) -> bool
    ensures { result ≡ bad_limit limit }
{
    !(1..=16).contains(&limit)
}

// Refusal 3 of black level, order and limit.
fn judge_asked(full: u64, black: u64, order: u64, limit: u64) -> Result<(), Refusal>
    ensures { result ≡ asked_verdict full black order limit }
{
    verdict::refuse_if(Refusal::Parameter, full < black)?;
    verdict::refuse_if(Refusal::Parameter, 3 < order)?;
    verdict::refuse_if(Refusal::Parameter, bad_limit(limit))
}

// Refusal 4, of a buffer that is to have an element for each block and ratio.
fn blocks_length(width: usize, height: usize, long: usize) -> Result<(), Refusal>
    ensures { result ≡ blocks_length width height long }
{
    verdict::refuse_if(Refusal::Length, long != 2 * blocks::blocks(width, height))
}

// Refusal 4 of the four buffers that are written.
fn judge_lengths(width: usize, height: usize, long: Lengths) -> Result<(), Refusal>
    ensures { result ≡ lengths_verdict width height long }
{
    blocks_length(width, height, long.numerators)?;
    blocks_length(width, height, long.denominators)?;
    blocks_length(width, height, long.refusals)?;
    blocks_length(width, height, long.fails)
}

// Refusals 1 to 4 and 9.
#[tactic(auto, unfolding(crate::specs::Judge::lent_verdict))]
fn judge_lent(asked: Asked, long: Lengths, totals: usize, counts: usize) -> Result<(), Refusal>
    ensures { result ≡ lent_verdict asked long totals counts }
{
    refusals::shape(asked.width, asked.height, asked.full)?;
    judge_asked(asked.full, asked.black, asked.order, asked.limit)?;
    blocks::table_lengths(asked.width, asked.height, totals, counts)?;
    judge_lengths(asked.width, asked.height, long)?;
    verdict::refuse_if(
        Refusal::TooSmall,
        colour::too_small(asked.width, asked.height),
    )
}

// Whether an entry of an area of so many sites cannot come from a frame.
#[tactic(auto, unfolding(crate::specs::Judge::impossible))]
fn impossible(full: u64, sites: u32, total: u32, count: u32) -> bool
    requires { full ≤ 4095 }
    ensures { result ≡ impossible full sites total count }
{
    (sites < count) | (u64::from(count) * full < u64::from(total))
}

// The area of the entry after one of area k: a division would take longer.
fn next_area(k: usize, areas: usize) -> usize
    requires { (k < areas) × (areas ≤ 21) }
    ensures { result ≡ (k + 1) % areas }
{
    if k + 1 < areas { k + 1 } else { 0 }
}

// Whether some entry of the table cannot come from a frame.
fn some_impossible(asked: Asked, totals: &[u32], counts: &[u32]) -> bool
    requires { (asked.full ≤ 4095) × (length totals.now ≡ entries_of asked.width asked.height) × (length counts.now ≡ entries_of asked.width asked.height) }
    ensures { result ≡ impossible_in asked.width asked.height asked.full totals.now counts.now }
{
    let areas = blocks::blocks(asked.width, asked.height) + 1;
    let mut found = false;
    let mut k: usize = 0;
    for (total, count) in totals.iter().zip(counts) {
        let sites = blocks::area_sites(asked.width, asked.height, k);
        found |= impossible(asked.full, sites, *total, *count);
        k = next_area(k, areas);
    }
    found
}

// All refusals of the call; 11 is asked only of a table that the others let pass.
#[tactic(auto, unfolding(crate::specs::Judge::judge_verdict))]
fn judge(asked: Asked, long: Lengths, totals: &[u32], counts: &[u32]) -> Result<(), Refusal>
    ensures { result ≡ judge_verdict asked long totals.now counts.now }
{
    judge_lent(asked, long, totals.len(), counts.len())?;
    verdict::refuse_if(Refusal::Impossible, some_impossible(asked, totals, counts))
}

// Ratio 0 is R over Gr, any other B over Gb: a number, since it also counts the halves of the buffers that are written.
#[tactic(auto, unfolding(crate::specs::Judge::planes_of))]
fn planes_of(order: u64, ratio: usize) -> Planes
    ensures { result ≡ planes_of order ratio }
{
    let by_colour = colour::mosaic_of(order);
    if ratio == 0 {
        Planes {
            colour: by_colour.r,
            green: by_colour.gr,
        }
    } else {
        Planes {
            colour: by_colour.b,
            green: by_colour.gb,
        }
    }
}

#[tactic(auto, unfolding(crate::specs::Shade::unseen))]
fn unseen(area: Tint) -> bool
    ensures { result ≡ unseen area }
{
    area.colour.count == 0 || area.green.count == 0
}

#[tactic(auto, unfolding(crate::specs::Shade::too_dark))]
fn too_dark(black: u16, block: Tint, centre: Tint) -> bool
    ensures { result ≡ too_dark black block centre }
{
    let block_green = colour::not_above(black, block.green);
    let centre_green = colour::not_above(black, centre.green);
    let centre_colour = colour::not_above(black, centre.colour);
    block_green | (centre_green | centre_colour)
}

// Whether a shade is above so many sixteenths. That these are at most 16 is asked of the three functions that take them: a type for one number is no plainer.
#[tactic(auto, unfolding(crate::specs::Shade::fails))]
fn fails(limit: u64, numerator: u64, denominator: u64) -> bool
    requires { (limit ≤ 16) × (numerator < 2 ^ 60) × (denominator < 2 ^ 60) }
    ensures { result ≡ fails limit numerator denominator }
{
    limit * denominator < 16 * numerator
}

// The shade of a/b in a block beside c/d at the centre.
fn judged_shade(limit: u64, block: Ratio, centre: Ratio) -> Shade
    requires { (limit ≤ 16) × (nat_abs block.numerator ≤ 4095 * 192 * 192) × (block.denominator ≤ 4095 * 192 * 192) × (nat_abs centre.numerator ≤ 4095 * 768 * 768) × (centre.denominator ≤ 4095 * 768 * 768) }
    ensures { result ≡ judged_shade limit block centre }
{
    let base = centre.numerator * block.denominator as i64;
    let offset = block.numerator * centre.denominator as i64 - base;
    let numerator = offset.unsigned_abs();
    let denominator = base.unsigned_abs();
    Shade {
        numerator,
        denominator,
        fail: fails(limit, numerator, denominator),
    }
}

// A block and ratio: 7, then 10, else how far it is off the centre's.
#[tactic(auto, unfolding(crate::specs::Shade::shade_of))]
fn shade_of(black: u16, limit: u64, block: Tint, centre: Tint) -> Result<Shade, Refusal>
    requires black_bound { (black ≤ 4095) × (limit ≤ 16) }
    requires block_possible { Possible 192 block }
    requires centre_possible { Possible 768 centre }
    ensures { result ≡ shade_of black limit block centre }
{
    verdict::refuse_if(Refusal::TooFew, unseen(block) | unseen(centre))?;
    verdict::refuse_if(Refusal::TooDark, too_dark(black, block, centre))?;
    let of_block = colour::over(black, block.colour, block.green);
    let of_centre = colour::over(black, centre.colour, centre.green);
    Ok(judged_shade(limit, of_block, of_centre))
}

// 0, or the number of a refusal: none is above 24.
#[tactic(auto, using(crate::proofs::Numbers::number_low))]
fn number_of(shade: Result<Shade, Refusal>) -> u8
    ensures { result ≡ number_of shade }
{
    match shade {
        Ok(_) => 0,
        Err(refusal) => refusal.number() as u8,
    }
}

// A table that can be judged, and the numbers that are handed in with it. C lends totals and counts as two lists, and the four that are written as four.
#[derive(Clone, Copy)]
struct Table<'a> {
    asked: Asked,
    totals: &'a [u32],
    counts: &'a [u32],
    ghost limits: { (asked.black ≤ 4095) × (asked.limit ≤ 16) },
    ghost whole: { Whole asked totals.now counts.now },
}

impl<'a> Table<'a> {
    // What it holds at one entry.
    fn sums_at(self, at: usize) -> Sums
        requires { (at < length self.totals.now) × (at < length self.counts.now) × (held self.counts.now at ≤ 768) }
        ensures { result ≡ sums (held self.entry.counts.now at) (held self.entry.totals.now at) }
    {
        // At most 768 sites, so the count fits: `try_from` would ask of an error that cannot be.
        Sums {
            count: self.counts[at] as u16,
            total: self.totals[at],
        }
    }

    // What it holds of area k of two planes.
    fn tint_at(self, of: Planes, k: usize) -> Tint
        requires { (of.colour < 4) × (of.green < 4) × (k < areas_of self.asked.width self.asked.height) }
        ensures value { result ≡ tint_of self.entry.asked.width self.entry.asked.height self.entry.totals.now self.entry.counts.now of k }
        ensures possible { Possible (area_sites self.entry.asked.width self.entry.asked.height k) result }
    {
        let areas = blocks::blocks(self.asked.width, self.asked.height) + 1;
        Tint {
            colour: self.sums_at(of.colour * areas + k),
            green: self.sums_at(of.green * areas + k),
        }
    }

    // Every block of one ratio beside its centre: the buffers have those of R/Gr, and then those of B/Gb.
    fn judge_ratio(
        self,
        ratio: usize,
        numerators: &mut [u64],
        denominators: &mut [u64],
        refusals: &mut [u8],
        fails: &mut [u8],
    )
        requires { (ratio < 2) × (length numerators.old ≡ 2 * blocks_of self.asked.width self.asked.height) × (length denominators.old ≡ 2 * blocks_of self.asked.width self.asked.height) × (length refusals.old ≡ 2 * blocks_of self.asked.width self.asked.height) × (length fails.old ≡ 2 * blocks_of self.asked.width self.asked.height) }
        ensures numerators_stored { Stored (λ (s : Written). s.numerator) self.entry.asked self.entry.totals.now self.entry.counts.now ratio numerators.old numerators.new }
        ensures denominators_stored { Stored (λ (s : Written). s.denominator) self.entry.asked self.entry.totals.now self.entry.counts.now ratio denominators.old denominators.new }
        ensures refusals_stored { Stored (λ (s : Written). s.number) self.entry.asked self.entry.totals.now self.entry.counts.now ratio refusals.old refusals.new }
        ensures fails_stored { Stored (λ (s : Written). s.fail) self.entry.asked self.entry.totals.now self.entry.counts.now ratio fails.old fails.new }
    {
        let asked = self.asked;
        let of = planes_of(asked.order, ratio);
        let blocks = blocks::blocks(asked.width, asked.height);
        let centre = self.tint_at(of, blocks);
        let first = ratio * blocks;
        // By an index, which is the place in four buffers: nested zips would be no plainer.
        for k in 0..blocks {
            let block = self.tint_at(of, k);
            let told = shade_of(asked.black as u16, asked.limit, block, centre);
            let shade = told.unwrap_or(NO_SHADE);
            numerators[first + k] = shade.numerator;
            denominators[first + k] = shade.denominator;
            refusals[first + k] = number_of(told);
            fails[first + k] = u8::from(shade.fail);
        }
    }

    // Every block of R/Gr, and then of B/Gb.
    fn judge_blocks(
        self,
        numerators: &mut [u64],
        denominators: &mut [u64],
        refusals: &mut [u8],
        fails: &mut [u8],
    )
        requires { (length numerators.old ≡ 2 * blocks_of self.asked.width self.asked.height) × (length denominators.old ≡ 2 * blocks_of self.asked.width self.asked.height) × (length refusals.old ≡ 2 * blocks_of self.asked.width self.asked.height) × (length fails.old ≡ 2 * blocks_of self.asked.width self.asked.height) }
        ensures numerators_after { numerators.new ≡ shades_of (λ (s : Written). s.numerator) self.entry.asked self.entry.totals.now self.entry.counts.now }
        ensures denominators_after { denominators.new ≡ shades_of (λ (s : Written). s.denominator) self.entry.asked self.entry.totals.now self.entry.counts.now }
        ensures refusals_after { refusals.new ≡ shades_of (λ (s : Written). s.number) self.entry.asked self.entry.totals.now self.entry.counts.now }
        ensures fails_after { fails.new ≡ shades_of (λ (s : Written). s.fail) self.entry.asked self.entry.totals.now self.entry.counts.now }
    {
        for ratio in 0..2 {
            self.judge_ratio(ratio, numerators, denominators, refusals, fails);
        }
    }
}

// Judges every block of a table beside the centre. Its numbers and buffers come one by one, as C hands them in.
pub fn shading_judge(
    width: usize,
    height: usize,
    full_scale: u64,
    black_level: u64,
    bayer_order: u64,
    limit: u64,
    totals: &[u32],
    counts: &[u32],
    numerators: &mut [u64],
    denominators: &mut [u64],
    refusals: &mut [u8],
    fails: &mut [u8],
) -> Result<(), Refusal>
    ensures answer { result ≡ judge_answer (asked width height full_scale black_level bayer_order limit) (lengths (length numerators.old) (length denominators.old) (length refusals.old) (length fails.old)) totals.now counts.now }
    ensures paper { paper_of result ≡ judge_paper (asked width height full_scale black_level bayer_order limit) (lengths (length numerators.old) (length denominators.old) (length refusals.old) (length fails.old)) totals.now counts.now }
    ensures numerators { numerators.new ≡ judge_numerators (asked width height full_scale black_level bayer_order limit) (lengths (length numerators.old) (length denominators.old) (length refusals.old) (length fails.old)) totals.now counts.now numerators.old }
    ensures denominators { denominators.new ≡ judge_denominators (asked width height full_scale black_level bayer_order limit) (lengths (length numerators.old) (length denominators.old) (length refusals.old) (length fails.old)) totals.now counts.now denominators.old }
    ensures refusals { refusals.new ≡ judge_refusals (asked width height full_scale black_level bayer_order limit) (lengths (length numerators.old) (length denominators.old) (length refusals.old) (length fails.old)) totals.now counts.now refusals.old }
    ensures fails { fails.new ≡ judge_fails (asked width height full_scale black_level bayer_order limit) (lengths (length numerators.old) (length denominators.old) (length refusals.old) (length fails.old)) totals.now counts.now fails.old }
{
    let asked = Asked::new(width, height, full_scale, black_level, bayer_order, limit);
    let long = Lengths::of(numerators, denominators, refusals, fails);
    judge(asked, long, totals, counts)?;
    let table = Table {
        asked,
        totals,
        counts,
    };
    table.judge_blocks(numerators, denominators, refusals, fails);
    Ok(())
}
