// The fields of a double's bit pattern.
#![tactic(auto)]

ghost use Rattle.std.specs.Prelude.{◌<◌};
ghost use Rattle.bits.specs.Fields.{Normalized};

// A significand of 53 binary digits, and its exponent: the magnitude is significand * 2^(exponent - 2096).
#[derive(Clone, Copy)]
pub struct Parts {
    pub significand: u64,
    pub exponent: u64,
}

// The parts of b, the pattern of a finite double above 0. A subnormal double's digits are shifted up
// until they are 53.
pub fn normalized(b: u64) -> Parts
    requires { (0 < b) × (b < 0x7ff0_0000_0000_0000) }
    ensures { Normalized b result.significand result.exponent }
{
    let biased = b >> 52;
    let fraction = b & 0x000f_ffff_ffff_ffff;
    if biased == 0 {
        let shift = fraction.leading_zeros() - 11;
        Parts {
            significand: fraction << shift,
            exponent: 1022 - u64::from(shift),
        }
    } else {
        Parts {
            significand: fraction + 0x0010_0000_0000_0000,
            exponent: biased + 1021,
        }
    }
}
