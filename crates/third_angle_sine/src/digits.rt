// The sine of a third of an angle, one binary digit a round.
ghost use Rattle.std.specs.Prelude.{◌≡◌, false, ◌+◌, ◌-◌, ◌*◌, ◌^◌, ◌<◌, ◌≤◌};
ghost use Rattle.std.specs.Float.{binary64};
ghost use Rattle.std.specs.Float.Ieee.{of_bits};
ghost use Rattle.elementary.specs.Reals.{third_angle_sine_real};
ghost use Rattle.algebraic.specs.Reals.{units};
ghost use Rattle.angle.specs.Arguments.{double_of};
ghost use Rattle.elementary.specs.Functions.{third_angle_sine_of};
ghost use Rattle.elementary.specs.Binade.{InBinade};

use algebraic::digits::rounded_by_digits;
use algebraic::{Algebraic, Binade, Sign, Sine, Size};
use angle::Pattern;

// The binade of the sine for a t above 0, of this size.
fn rising_binade(t: Size) -> Binade
    requires { (0 < units t) × (units t ≤ 2 ^ 128 - 2 ^ 75) }
    ensures rising { result.sign.bit ≡ 0 }
    ensures in_binade { InBinade (third_angle_sine_real (2 ^ (54 + result.e)) false (units t) (2 ^ 128)) }
{
    let sign = Sign { bit: 0 };
    for e in 1..27u64 {
        let binade = Binade { sign, e };
        if (Sine { binade, t }).compared(0x20_0000_0000_0000).is_ge() {
            return binade;
        }
    }
    Binade { sign, e: 27 }
}

// The pattern of the sine: below 1/2 for a t above 0, and from 1/2 to √3 / 2 for a t below 0.
pub fn sine_pattern(t: Pattern) -> u64
    ensures { (result < 0x7ff0_0000_0000_0000) × (of_bits binary64 result ≡ third_angle_sine_of (double_of t)) }
{
    let sign = t.sign;
    let t = t.size();
    if sign.bit == 0 {
        let binade = rising_binade(t);
        return ((1021 - binade.e) << 52) + rounded_by_digits(Sine { binade, t });
    }
    let binade = Binade { sign, e: 0 };
    0x3fd0_0000_0000_0000 + rounded_by_digits(Sine { binade, t })
}
