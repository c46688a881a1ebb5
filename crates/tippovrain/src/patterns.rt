// Pattern noise.
ghost use Rattle.std.specs.Prelude.{◌≡◌};
ghost use Rattle.pattern.specs.Lines.{columns, rows};
ghost use Rattle.std.specs.Result.{result_unwrap_or};
ghost use Rattle.pattern.specs.Figures.{no_figures};
ghost use Rattle.pattern.specs.Pattern.{pattern_paper};

use crate::answers::tell;
use pattern::Figures;
use verdict::Refusal;

// The figures of an answer, or zeros.
fn figures_or_zeros(answer: Result<Figures, Refusal>) -> Figures
    ensures { result ≡ result_unwrap_or answer no_figures }
{
    answer.unwrap_or(Figures {
        level_numerator: 0,
        level_denominator: 0,
        max_numerator: 0,
        max_denominator: 0,
    })
}

#[unsafe(no_mangle)]
pub extern "C" fn tip_pattern_vertical(
    width: usize,
    height: usize,
    full_scale: u64,
    frames: u64,
    mask: &[u8],
    sums: &[u32],
    place: &mut u64,
    level_numerator: &mut u64,
    level_denominator: &mut u64,
    max_numerator: &mut u64,
    max_denominator: &mut u64,
) -> u64
    ensures number { result ≡ (pattern_paper columns width height full_scale frames mask.now sums.now).number }
    ensures place { place.new ≡ (pattern_paper columns width height full_scale frames mask.now sums.now).place }
    ensures level { (level_numerator.new ≡ (pattern_paper columns width height full_scale frames mask.now sums.now).figures.level_numerator) × (level_denominator.new ≡ (pattern_paper columns width height full_scale frames mask.now sums.now).figures.level_denominator) }
    ensures max { (max_numerator.new ≡ (pattern_paper columns width height full_scale frames mask.now sums.now).figures.max_numerator) × (max_denominator.new ≡ (pattern_paper columns width height full_scale frames mask.now sums.now).figures.max_denominator) }
{
    let answer = pattern::pattern_vertical(width, height, full_scale, frames, mask, sums);
    let figures = figures_or_zeros(answer);
    *level_numerator = figures.level_numerator;
    *level_denominator = figures.level_denominator;
    *max_numerator = figures.max_numerator;
    *max_denominator = figures.max_denominator;
    tell(answer, place)
}

#[unsafe(no_mangle)]
pub extern "C" fn tip_pattern_horizontal(
    width: usize,
    height: usize,
    full_scale: u64,
    frames: u64,
    mask: &[u8],
    sums: &[u32],
    place: &mut u64,
    level_numerator: &mut u64,
    level_denominator: &mut u64,
    max_numerator: &mut u64,
    max_denominator: &mut u64,
) -> u64
    ensures number { result ≡ (pattern_paper rows width height full_scale frames mask.now sums.now).number }
    ensures place { place.new ≡ (pattern_paper rows width height full_scale frames mask.now sums.now).place }
    ensures level { (level_numerator.new ≡ (pattern_paper rows width height full_scale frames mask.now sums.now).figures.level_numerator) × (level_denominator.new ≡ (pattern_paper rows width height full_scale frames mask.now sums.now).figures.level_denominator) }
    ensures max { (max_numerator.new ≡ (pattern_paper rows width height full_scale frames mask.now sums.now).figures.max_numerator) × (max_denominator.new ≡ (pattern_paper rows width height full_scale frames mask.now sums.now).figures.max_denominator) }
{
    let answer = pattern::pattern_horizontal(width, height, full_scale, frames, mask, sums);
    let figures = figures_or_zeros(answer);
    *level_numerator = figures.level_numerator;
    *level_denominator = figures.level_denominator;
    *max_numerator = figures.max_numerator;
    *max_denominator = figures.max_denominator;
    tell(answer, place)
}
