// Whole numbers: how far two are apart, the size of a signed one, the whole square root, and one rounded division.
#![tactic(auto)]

ghost use Rattle.std.specs.Prelude.{◌≡◌, nat_abs};
ghost use Rattle.laws.specs.Signed.{apart};
ghost use Rattle.exact.specs.Root.{root};
ghost use Rattle.exact.specs.Quotient.{quotient_or_zero};

// |a − b|.
pub fn apart(a: u64, b: u64) -> u64
    ensures { result ≡ apart a b }
{
    a.abs_diff(b)
}

// |z|, as a u64, since the least i64 has no i64 of its size.
pub fn size(z: i64) -> u64
    ensures { result ≡ nat_abs z }
{
    z.unsigned_abs()
}

// The greatest whole number whose square is at most x: Newton's steps, down from a power of two above it.
// Not `isqrt`: must-fail/never_ends.edit, which may not change, makes this loop go on for ever.
pub fn root_of(x: u64) -> u64
    ensures { result ≡ root x }
{
    if x == 0 {
        return 0;
    }
    let mut r = 1u64 << ((65 - x.leading_zeros()) / 2);
    let mut q = x / r;
    while q < r {
        r = (r + q) / 2;
        q = x / r;
    }
    r
}

// 2 ^ 53: every whole number up to it becomes an f64 without loss.
pub const LOSSLESS: u64 = 0x20_0000_0000_0000;

// p / q, rounded once; 0.0 where q is 0, or where p or q would lose bits as an f64.
#[tactic(auto, using(crate::proofs::Quotients::zero_bits), unfolding(crate::specs::Quotient::quotient_or_zero, crate::specs::Quotient::castable))]
pub fn ratio(p: u64, q: u64) -> f64
    ensures { result ≡ quotient_or_zero p q }
{
    if q == 0 {
        return 0.0;
    }
    if LOSSLESS < q {
        return 0.0;
    }
    if LOSSLESS < p {
        return 0.0;
    }
    (p as f64) / (q as f64)
}
