// The square root of a double. Not std's `sqrt`, which is the processor's: document 01 asks for the root from the bits
// (entry 77 of docs/DECISIONS.md).
#![tactic(auto)]

ghost use Rattle.std.specs.Prelude.{◌≡◌};
ghost use Rattle.elementary.specs.Functions.{sqrt_of};

// A pattern is a plain number, as `to_bits` gives it, and its range a clause: below 2^63 in four functions (one in
// doubles, one here, two in cbrt), a finite double's above 0 in three (bits, cbrt, here), a normal one's in two (cbrt,
// here). Types would be no plainer: `sqrt` gives one number into two of the ranges, so it would make two values of it,
// and each is opened again to be shifted and masked. What comes back as a pattern goes into `from_bits` at once.
mod candidate;
mod certificate;
mod digits;

use crate::certificate::Verdict;

// IEEE 754's square root: a candidate in float arithmetic, given back where exact comparison certifies it; or its
// neighbour, where that is certified; and otherwise the root by its digits.
pub fn sqrt(x: f64) -> f64
    ensures { result ≡ sqrt_of x }
{
    if x.is_nan() {
        return x;
    }
    let b = x.to_bits();
    if (b >= 0x10_0000_0000_0000) & (b < 0x7ff0_0000_0000_0000) {
        let s = candidate::candidate(x, b);
        if !s.is_nan() {
            let c = s.to_bits();
            match certificate::root_judged(b, c) {
                Verdict::Nearest => return s,
                Verdict::TooLow => return f64::from_bits(c + 1),
                Verdict::TooHigh => return f64::from_bits(c - 1),
                Verdict::Unknown => {}
            }
        }
    }
    sqrt_by_digits(x)
}

// IEEE 754's square root, one binary digit a round.
#[tactic(auto, using(bits::proofs::Patterns::not_nan_bits))]
pub fn sqrt_by_digits(x: f64) -> f64
    ensures { result ≡ sqrt_of x }
{
    if x.is_nan() {
        return x;
    }
    let b = x.to_bits();
    if b == 0 {
        return x;
    }
    if b < 0x7ff0_0000_0000_0000 {
        return f64::from_bits(digits::root_pattern(b));
    }
    if b == 0x7ff0_0000_0000_0000 {
        return x;
    }
    if b == 0x8000_0000_0000_0000 {
        return x;
    }
    f64::NAN
}
