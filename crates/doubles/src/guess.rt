// A first guess of 1 / √x, for the estimates of several functions.

ghost use Rattle.std.specs.Prelude.{◌≡◌, ◌<◌, ◌^◌};
ghost use Rattle.doubles.specs.Guess.{inverse_root_guess};

// 1 / √x to within 3.5 % for the pattern b of a normal double x: half the exponent, and a straight line for the
// significand.
pub fn inverse_root_guess(b: u64) -> f64
    requires { b < 2 ^ 63 }
    ensures { result ≡ inverse_root_guess b }
{
    f64::from_bits(0x5fe6_eb50_c7b5_37a9 - (b >> 1))
}
