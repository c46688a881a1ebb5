// What every call tells of its answer.
ghost use Rattle.std.specs.Prelude.{◌≡◌};
ghost use Rattle.verdict.specs.Verdict.{number_of, place_of, over_of};

use verdict::Refusal;

// 0 and 0 where it is accepted, else the refusal's number and place.
pub fn tell<T: Copy>(answer: Result<T, Refusal>, place: &mut u64) -> u64
    ensures number { result ≡ number_of answer }
    ensures place { place.new ≡ place_of answer }
{
    match answer {
        Ok(_) => {
            *place = 0;
            0
        }
        Err(refusal) => {
            *place = refusal.place() as u64;
            refusal.number()
        }
    }
}

// The same of a call that can give 6, and so tells how many samples are over.
pub fn tell_counted<T: Copy>(answer: Result<T, Refusal>, place: &mut u64, over: &mut u64) -> u64
    ensures number { result ≡ number_of answer }
    ensures place { place.new ≡ place_of answer }
    ensures over { over.new ≡ over_of answer }
{
    *over = match answer {
        Ok(_) => 0,
        Err(refusal) => refusal.over(),
    };
    tell(answer, place)
}
