// Why a call is refused, and a test that refuses: document 01, "Refusal numbers", as document 02 d amends them.
#![tactic(auto)]

ghost use Rattle.std.specs.Prelude.{◌≡◌, Some};
ghost use Rattle.verdict.specs.declared.Refusal.{Refusal};
ghost use Rattle.verdict.specs.Verdict.{refuse_if};
ghost use Rattle.verdict.specs.Numbers.{refusal_number, refusal_place, refusal_count, refusal_text};

use std::fmt;

// A refusal, as document 01 tables them. 5 and 6 tell a site, and 6 how many samples are above full scale (document 02, d); 20 to 23 tell a byte of a stream.
#[derive(Clone, Copy)]
pub enum Refusal {
    Sides,
    FullScale,
    Parameter,
    Length,
    Code(usize),
    Over(usize, u64),
    TooFew,
    Unsurveyed,
    TooSmall,
    TooDark,
    Impossible,
    StackFull,
    EqualMeans,
    TooLarge,
    Cut(usize),
    OtherTag(usize),
    OtherLength(usize),
    Extra(usize),
    TooWide,
}

impl Refusal {
    pub fn number(self) -> u64
        ensures { result ≡ refusal_number self }
    {
        match self {
            Refusal::Sides => 1,
            Refusal::FullScale => 2,
            Refusal::Parameter => 3,
            Refusal::Length => 4,
            Refusal::Code(_) => 5,
            Refusal::Over(_, _) => 6,
            Refusal::TooFew => 7,
            Refusal::Unsurveyed => 8,
            Refusal::TooSmall => 9,
            Refusal::TooDark => 10,
            Refusal::Impossible => 11,
            Refusal::StackFull => 12,
            Refusal::EqualMeans => 13,
            Refusal::TooLarge => 14,
            Refusal::Cut(_) => 20,
            Refusal::OtherTag(_) => 21,
            Refusal::OtherLength(_) => 22,
            Refusal::Extra(_) => 23,
            Refusal::TooWide => 24,
        }
    }

    // The site of 5 and 6, the byte of 20 to 23, else 0.
    pub fn place(self) -> usize
        ensures { result ≡ refusal_place self }
    {
        match self {
            Refusal::Code(site) => site,
            Refusal::Over(site, _) => site,
            Refusal::Cut(at) => at,
            Refusal::OtherTag(at) => at,
            Refusal::OtherLength(at) => at,
            Refusal::Extra(at) => at,
            _ => 0,
        }
    }

    // How many samples are above full scale, which only 6 tells.
    pub fn over(self) -> u64
        ensures { result ≡ refusal_count self }
    {
        if let Refusal::Over(_, count) = self {
            count
        } else {
            0
        }
    }
}

// Number and place, and where samples are over how many: so of a 6, which has at least one.
impl fmt::Display for Refusal {
    ghost output = { λ r. Some (refusal_text r) };

    fn fmt<W: fmt::Write>(&self, f: &mut fmt::Formatter<W>) -> fmt::Result {
        write!(f, "refused {} at {}", self.number(), self.place())?;
        if self.over() != 0 {
            write!(f, " count {}", self.over())?;
        }
        Ok(())
    }
}

// What a call may be refused with: one that hands in verdicts of its own may have refusals that the table has no name for, and says what it has for each of the table's.
pub trait Refusing: Copy {
    ghost told: { Refusal → Self };

    fn of(refusal: Refusal) -> Self
        ensures { result ≡ told refusal };
}

// The table's refusals themselves.
impl Refusing for Refusal {
    ghost told = { λ r. r };

    fn of(refusal: Refusal) -> Refusal {
        refusal
    }
}

// Refused where the test applies, with a refusal of any type.
pub fn refuse_if<R: Copy>(refusal: R, applies: bool) -> Result<(), R>
    ensures { result ≡ refuse_if refusal applies }
{
    if applies { Err(refusal) } else { Ok(()) }
}
