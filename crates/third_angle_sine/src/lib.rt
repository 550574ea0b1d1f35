// The sine of a third of an angle, by the cosine t of the angle.
#![tactic(auto)]

ghost use Rattle.std.specs.Prelude.{◌≡◌};
ghost use Rattle.angle.specs.Candidates.{sine_candidate};
ghost use Rattle.elementary.specs.Functions.{third_angle_sine_of};

use angle::candidate::{self, Estimate};
use angle::{Pair, Pattern, ThirdAngle, third_angle, third_angle_by_digits};

pub mod certificate;
pub mod digits;

// The sine as one of the two functions.
pub struct Sine;

impl ThirdAngle for Sine {
    ghost of = { third_angle_sine_of };

    fn known(p: Pair) -> f64 {
        p.sin
    }

    ghost candidate_of = { λ t e. sine_candidate t e.u e.d e.square e.rest };

    fn candidate(t: f64, e: Estimate) -> f64 {
        candidate::sine_candidate(t, e)
    }

    fn certified(t: Pattern, c: u64) -> bool {
        certificate::is_sine(t, c)
    }

    fn pattern(t: Pattern) -> u64 {
        digits::sine_pattern(t)
    }
}

// The double nearest to the sine, by a candidate in float arithmetic.
pub fn third_angle_sine(t: f64) -> f64
    ensures { result ≡ third_angle_sine_of t }
{
    third_angle::<Sine>(t)
}

// The double nearest to the sine, one binary digit a round.
pub fn third_angle_sine_by_digits(t: f64) -> f64
    ensures { result ≡ third_angle_sine_of t }
{
    third_angle_by_digits::<Sine>(t)
}
