// An estimate of the cube root in float arithmetic. Nothing is claimed of its distance from the root: exact
// comparison certifies it or not. (It is the nearest double but for about one normal argument in ten thousand.)
ghost use Rattle.std.specs.Prelude.{◌≡◌, ◌<◌, ◌^◌};
ghost use Rattle.cbrt.specs.Candidate.{first_guess, factor_of, refined_root, candidate_of};

use doubles::leading_digits;

// Near the cube root of the double whose pattern is b: a third of the exponent.
#[tactic(auto, using(bits::proofs::Patterns::not_nan_bits), unfolding(crate::specs::Candidate::first_guess))]
fn first_guess(b: u64) -> f64
    requires { b < 2 ^ 63 }
    ensures { result ≡ first_guess b }
{
    f64::from_bits(b / 3 + 0x2a9f_7893_782d_a1ce)
}

// About r^(-1/3), to 23 digits for an r near 1.
#[tactic(auto, unfolding(crate::specs::Candidate::factor_of))]
fn factor(r: f64) -> f64
    ensures { result ≡ factor_of r }
{
    1.87595182427177 - r * (1.8849797954337717 - r * 1.6214297201053545)
        + r * r * r * (r * 0.14599619288661245 - 0.758397934778766)
}

// With t near the root, of 23 digits: t³ is x(1 - z), where x - t³ is exact, and the root t(1 - z)^(-1/3).
#[tactic(auto, unfolding(crate::specs::Candidate::refined_root))]
fn refined(x: f64, inverse: f64, t: f64) -> f64
    ensures { result ≡ refined_root x inverse t }
{
    let square = t * t;
    let s = leading_digits(square, 134217729.0);
    let z = ((x - s * t) - (square - s) * t) * inverse;
    t + t * (z * (0.3333333333333333 + z * 0.2222222222222222))
}

#[tactic(auto, unfolding(crate::specs::Candidate::candidate_of))]
pub fn candidate(x: f64, b: u64) -> f64
    requires { b < 2 ^ 63 }
    ensures { result ≡ candidate_of x b }
{
    let inverse = 1.0 / x;
    let g = first_guess(b);
    refined(
        x,
        inverse,
        leading_digits(g * factor(g * g * (g * inverse)), 1073741825.0),
    )
}
