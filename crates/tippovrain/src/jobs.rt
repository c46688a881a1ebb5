// The job.
ghost use Rattle.std.specs.Prelude.{◌≡◌};
ghost use Rattle.stream.specs.Job.{job_paper};

use crate::answers::tell_counted;
use stream::JobFigures;

#[unsafe(no_mangle)]
pub extern "C" fn tip_job(
    input: &[u8],
    place: &mut u64,
    over: &mut u64,
    sites: &mut u64,
    p: &mut u64,
    q: &mut u64,
    r: &mut u64,
    dark: &mut i64,
) -> u64
    ensures number { result ≡ (job_paper input.now).number }
    ensures place { place.new ≡ (job_paper input.now).place }
    ensures over { over.new ≡ (job_paper input.now).over }
    ensures sites { sites.new ≡ (job_paper input.now).figures.sites }
    ensures p { p.new ≡ (job_paper input.now).figures.p }
    ensures q { q.new ≡ (job_paper input.now).figures.q }
    ensures r { r.new ≡ (job_paper input.now).figures.r }
    ensures dark { dark.new ≡ (job_paper input.now).figures.dark }
{
    let answer = stream::job(input);
    let figures = answer.unwrap_or(JobFigures {
        sites: 0,
        p: 0,
        q: 0,
        r: 0,
        r_over: 0,
        dark: 0,
        dark_over: 0,
    });
    *sites = figures.sites;
    *p = figures.p;
    *q = figures.q;
    *r = figures.r;
    *dark = figures.dark;
    tell_counted(answer, place, over)
}
