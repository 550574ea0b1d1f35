// Whether a double is the nearest one to a cube root, by exact comparison of whole numbers.
ghost use Rattle.std.specs.Prelude.{◌<◌, ◌≤◌, ◌^◌};
ghost use Rattle.cbrt.specs.Certificate.{RootBy};

use words::Factor;
use words::wide::Wide;

// Whether c is the pattern of the double nearest to the cube root of the normal double whose pattern is b: with
// the exponent of the root, its significand n is certain where (2n - 1)³ and (2n + 1)³ enclose 8 times its cube.
// A no says that c is no significand of that exponent or not well inside, and costs only time: the caller then finds
// the digits one by one.
pub fn is_root(b: u64, c: u64) -> bool
    requires { (2 ^ 52 ≤ b) × (b < 0x7ff0_0000_0000_0000) }
    ensures { RootBy b c result }
{
    let exponent = (b >> 52) + 2043;
    let start = (exponent / 3) << 52;
    if c < start {
        return false;
    }
    let n = c - start;
    if n <= 0x10_0000_0000_0000 {
        return false;
    }
    if n >= 0x20_0000_0000_0000 {
        return false;
    }
    let m = ((b & 0xf_ffff_ffff_ffff) + 0x10_0000_0000_0000) << (exponent % 3);
    let target = Wide {
        high: m >> 1,
        low: (m & 1) << 53,
    };
    midpoints::cubic::between(2 * n, 0, Factor { wide: target })
}
