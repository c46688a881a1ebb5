// Pair noise.
ghost use Rattle.std.specs.Prelude.{◌≡◌};
ghost use Rattle.pair.specs.Pair.{pair_paper};

use crate::answers::tell_counted;
use pair::PairFigures;

#[unsafe(no_mangle)]
pub extern "C" fn tip_pair_figures(
    width: usize,
    height: usize,
    full_scale: u64,
    mask: &[u8],
    first: &[u16],
    second: &[u16],
    place: &mut u64,
    over: &mut u64,
    n: &mut u64,
    p: &mut u64,
    q: &mut u64,
    r: &mut u64,
    variance: &mut f64,
    noise: &mut f64,
) -> u64
    ensures number { result ≡ (pair_paper width height full_scale mask.now first.now second.now).number }
    ensures place { place.new ≡ (pair_paper width height full_scale mask.now first.now second.now).place }
    ensures over { over.new ≡ (pair_paper width height full_scale mask.now first.now second.now).over }
    ensures n { n.new ≡ (pair_paper width height full_scale mask.now first.now second.now).figures.n }
    ensures p { p.new ≡ (pair_paper width height full_scale mask.now first.now second.now).figures.p }
    ensures q { q.new ≡ (pair_paper width height full_scale mask.now first.now second.now).figures.q }
    ensures r { r.new ≡ (pair_paper width height full_scale mask.now first.now second.now).figures.r }
    ensures variance { variance.new ≡ (pair_paper width height full_scale mask.now first.now second.now).figures.variance }
    ensures noise { noise.new ≡ (pair_paper width height full_scale mask.now first.now second.now).figures.noise }
{
    let answer = pair::pair_figures(width, height, full_scale, mask, first, second);
    let figures = answer.unwrap_or(PairFigures {
        n: 0,
        p: 0,
        q: 0,
        r: 0,
        variance: 0.0,
        noise: 0.0,
    });
    *n = figures.n;
    *p = figures.p;
    *q = figures.q;
    *r = figures.r;
    *variance = figures.variance;
    *noise = figures.noise;
    tell_counted(answer, place, over)
}
