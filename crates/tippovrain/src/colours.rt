// Colour ratios.
ghost use Rattle.std.specs.Prelude.{◌≡◌};
ghost use Rattle.colour.specs.Colour.{ratio, colour_paper};

use crate::answers::tell_counted;
use colour::{Colours, Ratio};

#[unsafe(no_mangle)]
pub extern "C" fn tip_colour_ratios(
    width: usize,
    height: usize,
    full_scale: u64,
    black_level: u64,
    bayer_order: u64,
    mask: &[u8],
    frame: &[u16],
    place: &mut u64,
    over: &mut u64,
    r_numerator: &mut i64,
    r_denominator: &mut u64,
    b_numerator: &mut i64,
    b_denominator: &mut u64,
    gb_numerator: &mut i64,
    gb_denominator: &mut u64,
) -> u64
    ensures number { result ≡ (colour_paper width height full_scale black_level bayer_order mask.now frame.now).number }
    ensures place { place.new ≡ (colour_paper width height full_scale black_level bayer_order mask.now frame.now).place }
    ensures over { over.new ≡ (colour_paper width height full_scale black_level bayer_order mask.now frame.now).over }
    ensures r { ratio r_numerator.new r_denominator.new ≡ (colour_paper width height full_scale black_level bayer_order mask.now frame.now).figures.r }
    ensures b { ratio b_numerator.new b_denominator.new ≡ (colour_paper width height full_scale black_level bayer_order mask.now frame.now).figures.b }
    ensures gb { ratio gb_numerator.new gb_denominator.new ≡ (colour_paper width height full_scale black_level bayer_order mask.now frame.now).figures.gb }
{
    let answer = colour::colour_ratios(
        width,
        height,
        full_scale,
        black_level,
        bayer_order,
        mask,
        frame,
    );
    let none = Ratio {
        numerator: 0,
        denominator: 0,
    };
    let ratios = answer.unwrap_or(Colours {
        r: none,
        b: none,
        gb: none,
    });
    *r_numerator = ratios.r.numerator;
    *r_denominator = ratios.r.denominator;
    *b_numerator = ratios.b.numerator;
    *b_denominator = ratios.b.denominator;
    *gb_numerator = ratios.gb.numerator;
    *gb_denominator = ratios.gb.denominator;
    tell_counted(answer, place, over)
}
