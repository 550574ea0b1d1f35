// The cube root of a finite double above 0, one binary digit a round.
ghost use Rattle.std.specs.Prelude.{◌≡◌, ◌<◌};
ghost use Rattle.std.specs.Float.{binary64};
ghost use Rattle.std.specs.Float.Ieee.{of_bits};
ghost use Rattle.elementary.specs.Functions.{cbrt_of};

use algebraic::CubeRoot;
use algebraic::digits::rounded_by_digits;

// The pattern of the cube root of the finite double above 0 whose pattern is b. The root has a third of the
// exponent, and its significand is the root of the significand with the rest of the exponent.
pub fn root_pattern(b: u64) -> u64
    requires { (0 < b) × (b < 0x7ff0_0000_0000_0000) }
    ensures { (result < 0x7ff0_0000_0000_0000) × (of_bits binary64 result ≡ cbrt_of (of_bits binary64 b)) }
{
    let parts = bits::normalized(b);
    let exponent = parts.exponent + 1022;
    let root = CubeRoot {
        m: parts.significand,
        o: exponent % 3,
    };
    let r = rounded_by_digits(root);
    ((exponent / 3) << 52) + r
}
