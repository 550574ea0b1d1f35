// Small functions on doubles. The crate's larger part is in specs/ and proofs/: exact values of doubles and rounding errors.
#![tactic(auto)]

ghost use Rattle.std.specs.Prelude.{◌≡◌};
ghost use Rattle.std.specs.Float.Ieee.Scale.{finite};
ghost use Rattle.doubles.specs.Constants.{eps};
ghost use Rattle.doubles.specs.Functions.{absᶠ, minᶠ, maxᶠ};

mod guess; // guess.rt: a first guess of 1 / √x
mod splitting; // splitting.rt: a double's leading digits

pub use guess::inverse_root_guess;
pub use splitting::leading_digits;

// The code's f64::EPSILON, document 01's EPS.
pub const EPSILON: f64 = f64::EPSILON;

// It is that of the definitions.
pub fn constants() -> f64
    ensures epsilon_value { EPSILON ≡ eps }
    ensures gives { result ≡ eps }
{
    EPSILON
}

// As Rust's `abs`: the sign is cleared, also that of -0. This function and `is_finite` only say in the definitions' words
// what std's say.
#[tactic(auto, using(crate::proofs::FunctionLaws::sign_cleared))]
pub fn abs(x: f64) -> f64
    ensures { result ≡ absᶠ x }
{
    x.abs()
}

// As Rust's `min`: of a number and a NaN the number, and of 0 and -0 the first, where the library's promises either.
pub fn min(x: f64, y: f64) -> f64
    ensures { result ≡ minᶠ x y }
{
    if x.is_nan() {
        return y;
    }
    if y < x { y } else { x }
}

// As Rust's `max`: of a number and a NaN the number, and of 0 and -0 the first, where the library's promises either.
pub fn max(x: f64, y: f64) -> f64
    ensures { result ≡ maxᶠ x y }
{
    if x.is_nan() {
        return y;
    }
    if x < y { y } else { x }
}

// As Rust's `is_finite`.
pub fn is_finite(x: f64) -> bool
    ensures { result ≡ finite x }
{
    x.is_finite()
}
