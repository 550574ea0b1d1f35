// The significand nearest to an algebraic number, one binary digit a round.
ghost use Rattle.std.specs.Prelude.{◌≡◌, ◌^◌, ◌<◌};
ghost use Rattle.elementary.specs.Nearest.{floor_from};
ghost use Rattle.elementary.specs.Binade.{InBinade, RoundsTo};

use crate::Algebraic;
use std::cmp::Ordering;

// The largest whole number that is at most the algebraic number, one binary digit a round.
fn floor_by_digits<R: Algebraic>(c: R) -> u64
    ensures { (result < 2 ^ 54) × (result ≡ floor_from (R.real c) 53 (2 ^ 53)) }
{
    let mut n: u64 = 0x20_0000_0000_0000;
    for d in (0..53u64).rev() {
        let t = n + (1u64 << d);
        if c.compared(t).is_ge() {
            n = t;
        }
    }
    n
}

// The nearest, by the digits of the floor. A tie goes to the even number.
pub fn rounded_by_digits<R: Algebraic>(c: R) -> u64
    requires { InBinade (R.real c) }
    ensures { RoundsTo (R.real c) result }
{
    let q = floor_by_digits(c) >> 1;
    match c.compared(2 * q + 1) {
        Ordering::Less => q,
        Ordering::Equal => q + q % 2,
        Ordering::Greater => q + 1,
    }
}
