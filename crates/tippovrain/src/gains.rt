// Photon transfer.
ghost use Rattle.std.specs.Prelude.{◌≡◌};
ghost use Rattle.gain.specs.Gain.{curve_of_rows, transfer_paper};

use crate::answers::tell;
use gain::Gain;

// A point of the header is a row: three numbers, exposure, mean and variance.
#[unsafe(no_mangle)]
pub extern "C" fn tip_photon_transfer(
    points: &[[u64; 3]],
    first: usize,
    last: usize,
    place: &mut u64,
    numerator: &mut i64,
    denominator: &mut u64,
    slope: &mut f64,
    saturation: &mut u64,
) -> u64
    ensures number { result ≡ (transfer_paper (curve_of_rows points.now) first last).number }
    ensures place { place.new ≡ (transfer_paper (curve_of_rows points.now) first last).place }
    ensures numerator { numerator.new ≡ (transfer_paper (curve_of_rows points.now) first last).figures.numerator }
    ensures denominator { denominator.new ≡ (transfer_paper (curve_of_rows points.now) first last).figures.denominator }
    ensures slope { slope.new ≡ (transfer_paper (curve_of_rows points.now) first last).figures.slope }
    ensures saturation { saturation.new ≡ (transfer_paper (curve_of_rows points.now) first last).figures.saturation }
{
    let answer = gain::transfer_of_rows(points, first, last);
    let gain = answer.unwrap_or(Gain {
        numerator: 0,
        denominator: 0,
        slope: 0.0,
        saturation: 0,
    });
    *numerator = gain.numerator;
    *denominator = gain.denominator;
    *slope = gain.slope;
    *saturation = gain.saturation as u64;
    tell(answer, place)
}
