// The cosine of a third of an angle, one binary digit a round.
ghost use Rattle.std.specs.Prelude.{◌≡◌, ◌+◌, ◌*◌, ◌^◌, ◌<◌, ◌≤◌};
ghost use Rattle.std.specs.Float.{binary64};
ghost use Rattle.std.specs.Float.Ieee.{of_bits};
ghost use Rattle.angle.specs.Arguments.{double_of};
ghost use Rattle.elementary.specs.Functions.{third_angle_cosine_of};

use algebraic::Cosine;
use algebraic::digits::rounded_by_digits;
use angle::Pattern;

// The pattern of the cosine: it is from 1/2 up to 1.
pub fn cosine_pattern(t: Pattern) -> u64
    ensures { (result < 0x7ff0_0000_0000_0000) × (of_bits binary64 result ≡ third_angle_cosine_of (double_of t)) }
{
    let cosine = Cosine {
        sign: t.sign,
        t: t.size(),
    };
    0x3fd0_0000_0000_0000 + rounded_by_digits(cosine)
}
