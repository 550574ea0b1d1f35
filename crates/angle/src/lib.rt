// The cosine t of an angle, taken apart for the cosine and the sine of a third of the angle.
#![tactic(auto)]

ghost use Rattle.std.specs.Prelude.{◌≡◌};
ghost use Rattle.algebraic.specs.Reals.{units};
ghost use Rattle.angle.specs.Arguments.{Taken, size_of};
ghost use Rattle.angle.specs.declared.Argument.TheVariants.{Known};

pub mod candidate;
mod pattern; // pattern.rt: the sign and the pattern of a t
mod third; // third.rt: the two functions of the third, by what they have in common

use algebraic::{Sign, Size};
pub use pattern::Pattern;
pub use third::{ThirdAngle, nearest, third_angle, third_angle_by_digits};

// The cosine and the sine of a third of an angle.
#[derive(Clone, Copy)]
pub struct Pair {
    pub cos: f64,
    pub sin: f64,
}

// No Result: neither of the two is a failure.
#[derive(Clone, Copy)]
pub enum Argument {
    // The pair itself: t is not from -1 to 1, or is one of the two, or is near 0.
    Known(Pair),
    Inside(Pattern),
}

fn known(cos: f64, sin: f64) -> Argument
    ensures { result ≡ Known (record { cos = cos; sin = sin }) }
{
    Argument::Known(Pair { cos, sin })
}

pub fn classify(t: f64) -> Argument
    ensures { Taken t result }
{
    if t.is_nan() {
        return known(t, t);
    }
    let b = t.to_bits();
    let m = b & 0x7fff_ffff_ffff_ffff;
    if m > 0x3ff0_0000_0000_0000 {
        return known(f64::NAN, f64::NAN);
    }
    if m == 0x3ff0_0000_0000_0000 {
        if b == m {
            return known(1.0, 0.0);
        }
        return known(0.5, 0.8660254037844386);
    }
    if m < 0x3c80_0000_0000_0000 {
        return known(0.8660254037844386, 0.5);
    }
    let sign = Sign { bit: b >> 63 };
    Argument::Inside(Pattern { sign, m })
}

impl Pattern {
    // The size of t, by the pattern of its magnitude.
    pub fn size(self) -> Size
        ensures { units result ≡ size_of self.m }
    {
        let significand = (self.m & 0xf_ffff_ffff_ffff) + 0x10_0000_0000_0000;
        let shift = (self.m >> 52) - 947;
        if shift < 64 {
            Size {
                high: significand >> (64 - shift),
                low: significand << shift,
            }
        } else {
            Size {
                high: significand << (shift - 64),
                low: 0,
            }
        }
    }
}
