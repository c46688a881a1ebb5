// Dark level.
ghost use Rattle.std.specs.Prelude.{◌≡◌};
ghost use Rattle.dark.specs.Dark.{dark_paper};

use crate::answers::tell_counted;
use dark::Level;

#[unsafe(no_mangle)]
pub extern "C" fn tip_dark_level(
    width: usize,
    height: usize,
    full_scale: u64,
    black_level: u64,
    mask: &[u8],
    frame: &[u16],
    place: &mut u64,
    over: &mut u64,
    numerator: &mut i64,
    denominator: &mut u64,
) -> u64
    ensures number { result ≡ (dark_paper width height full_scale black_level mask.now frame.now).number }
    ensures place { place.new ≡ (dark_paper width height full_scale black_level mask.now frame.now).place }
    ensures over { over.new ≡ (dark_paper width height full_scale black_level mask.now frame.now).over }
    ensures numerator { numerator.new ≡ (dark_paper width height full_scale black_level mask.now frame.now).figures.numerator }
    ensures denominator { denominator.new ≡ (dark_paper width height full_scale black_level mask.now frame.now).figures.denominator }
{
    let answer = dark::dark_level(width, height, full_scale, black_level, mask, frame);
    let level = answer.unwrap_or(Level {
        numerator: 0,
        denominator: 0,
    });
    *numerator = level.numerator;
    *denominator = level.denominator;
    tell_counted(answer, place, over)
}
