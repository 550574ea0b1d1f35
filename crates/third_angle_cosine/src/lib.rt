// The cosine of a third of an angle, by the cosine t of the angle.
#![tactic(auto)]

ghost use Rattle.std.specs.Prelude.{◌≡◌};
ghost use Rattle.angle.specs.Candidates.{cosine_candidate};
ghost use Rattle.elementary.specs.Functions.{third_angle_cosine_of};

use angle::candidate::{self, Estimate};
use angle::{Pair, Pattern, ThirdAngle, third_angle, third_angle_by_digits};

pub mod certificate;
pub mod digits;

// The cosine as one of the two functions.
pub struct Cosine;

impl ThirdAngle for Cosine {
    ghost of = { third_angle_cosine_of };

    fn known(p: Pair) -> f64 {
        p.cos
    }

    ghost candidate_of = { λ _ e. cosine_candidate e.u e.d };

    fn candidate(t: f64, e: Estimate) -> f64 {
        candidate::cosine_candidate(e)
    }

    fn certified(t: Pattern, c: u64) -> bool {
        certificate::is_cosine(t, c)
    }

    fn pattern(t: Pattern) -> u64 {
        digits::cosine_pattern(t)
    }
}

// The double nearest to the cosine, by a candidate in float arithmetic.
pub fn third_angle_cosine(t: f64) -> f64
    ensures { result ≡ third_angle_cosine_of t }
{
    third_angle::<Cosine>(t)
}

// The double nearest to the cosine, one binary digit a round.
pub fn third_angle_cosine_by_digits(t: f64) -> f64
    ensures { result ≡ third_angle_cosine_of t }
{
    third_angle_by_digits::<Cosine>(t)
}
