// The cosine and the sine of a third of an angle, by what the two functions have in common.
ghost use Rattle.std.specs.Prelude.{◌≡◌, true, ◌<◌, Float};
ghost use Rattle.std.specs.Float.{binary64};
ghost use Rattle.std.specs.Float.Ieee.{of_bits};
ghost use Rattle.elementary.specs.Functions.{third_angle_cosine_of, third_angle_sine_of};
ghost use Rattle.angle.specs.Arguments.{double_of};
ghost use Rattle.angle.specs.declared.candidate.Estimate.{Estimate};

use crate::candidate::{Estimate, estimated};
use crate::{Argument, Pair, Pattern, classify};

pub trait ThirdAngle {
    // The function of t.
    ghost of: { Float → Float };

    // Its value, of the two that are known.
    fn known(p: Pair) -> f64
        ensures { (t : Float) → p.cos ≡ third_angle_cosine_of t → p.sin ≡ third_angle_sine_of t
            → result ≡ of t };

    // Its candidate, of whose distance nothing is claimed.
    ghost candidate_of: { Float → Estimate → Float };

    fn candidate(t: f64, e: Estimate) -> f64
        ensures { result ≡ candidate_of t e };

    // Whether c is for certain the pattern of the double nearest to it.
    fn certified(t: Pattern, c: u64) -> bool
        ensures { result ≡ true → of_bits binary64 c ≡ of (double_of t) };

    // The pattern of the double nearest to it, one binary digit a round.
    fn pattern(t: Pattern) -> u64
        ensures { (result < 0x7ff0_0000_0000_0000) × (of_bits binary64 result ≡ of (double_of t)) };
}

// The nearest double: the candidate where comparison of whole numbers certifies it, and else the one by its digits.
#[tactic(auto, using(bits::proofs::Patterns::not_nan_bits))]
pub fn nearest<F: ThirdAngle>(t: Pattern, candidate: f64) -> f64
    ensures { result ≡ F.of (double_of t) }
{
    if !candidate.is_nan() {
        if F::certified(t, candidate.to_bits()) {
            return candidate;
        }
    }
    f64::from_bits(F::pattern(t))
}

// The nearest double, by a candidate in float arithmetic.
pub fn third_angle<F: ThirdAngle>(t: f64) -> f64
    ensures { result ≡ F.of t }
{
    match classify(t) {
        Argument::Known(p) => F::known(p),
        Argument::Inside(i) => nearest::<F>(i, F::candidate(t, estimated(t))),
    }
}

// The nearest double, one binary digit a round.
#[tactic(auto, using(bits::proofs::Patterns::not_nan_bits))]
pub fn third_angle_by_digits<F: ThirdAngle>(t: f64) -> f64
    ensures { result ≡ F.of t }
{
    match classify(t) {
        Argument::Known(p) => F::known(p),
        Argument::Inside(i) => f64::from_bits(F::pattern(i)),
    }
}
