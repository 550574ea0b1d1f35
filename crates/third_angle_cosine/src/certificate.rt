// Whether a double is the nearest one to the cosine of a third of an angle, by exact comparison of whole numbers.
ghost use Rattle.std.specs.Prelude.{◌^◌, ◌<◌, ◌≤◌};
ghost use Rattle.third_angle_cosine.specs.Scaled.{Shifted, Target};
ghost use Rattle.third_angle_cosine.specs.Certificate.{CosineBy};

use angle::Pattern;
use words::Factor;
use words::wide::Wide;

// significand * 2^shift.
fn shifted(significand: u64, shift: u64) -> Wide
    requires { (significand < 2 ^ 53) × (shift < 54) }
    ensures { Shifted significand shift result.high result.low }
{
    Wide {
        high: significand >> (54 - shift),
        low: (significand << shift) & 0x3f_ffff_ffff_ffff,
    }
}

// (1 + t) * 2^106, for a t from 2^-54 up to 1 in size.
fn target(t: Pattern) -> Factor
    requires { 0x3c90_0000_0000_0000 ≤ t.m }
    ensures { Target t.sign.bit t.m result.wide.high result.wide.low }
{
    let size = shifted(
        (t.m & 0xf_ffff_ffff_ffff) + 0x10_0000_0000_0000,
        (t.m >> 52) - 969,
    );
    if t.sign.bit == 0 {
        let plus = Wide {
            high: 0x10_0000_0000_0000 + size.high,
            low: size.low,
        };
        return Factor { wide: plus };
    }
    let minus = Wide {
        high: 0xf_ffff_ffff_ffff - size.high,
        low: 0x40_0000_0000_0000 - size.low,
    };
    Factor { wide: minus }
}

// Whether c is the pattern of the double nearest to the cosine. With 1/2 + h for the cosine the equation is
// h²(6 + 4h) = 1 + t: the candidate 1/2 + h * 2^-53 is certain where (1 + t) * 2^160 lies between the values of
// j²(3 * 2^53 + j) at 2h - 1 and 2h + 1. A no says that c or t is out of this range or (1 + t) * 2^160 not well inside,
// and costs only time: the caller then finds the digits one by one.
pub fn is_cosine(t: Pattern, c: u64) -> bool
    ensures { CosineBy t.sign.bit t.m c result }
{
    if t.m < 0x3c90_0000_0000_0000 {
        return false;
    }
    if c <= 0x3fe0_0000_0000_0000 {
        return false;
    }
    if c > 0x3ff0_0000_0000_0000 {
        return false;
    }
    midpoints::cubic::between(2 * (c - 0x3fe0_0000_0000_0000), 3, target(t))
}
