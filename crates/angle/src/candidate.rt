// Estimates of the cosine and the sine of a third of an angle in float arithmetic, from the angle's cosine t. Nothing
// is claimed of their distance from the exact ones: exact comparison certifies them or not. (For a t spread evenly
// about one sine in a hundred thousand is not certified, and fewer cosines.)
ghost use Rattle.std.specs.Prelude.{◌≡◌};
ghost use Rattle.angle.specs.Candidates.{newton_step, inverse_root, polynomial_of, excess_of};
ghost use Rattle.angle.specs.Candidates.{correction_of, Estimated, cosine_candidate, near_root, large_sine};
ghost use Rattle.angle.specs.Candidates.{small_sine, sine_candidate};

use doubles::leading_digits;

// A step of Newton's method for 1 / √(2h).
#[tactic(auto, unfolding(crate::specs::Candidates::newton_step))]
fn newton(h: f64, y: f64) -> f64
    ensures { result ≡ newton_step h y }
{
    y * (1.5 - h * y * y)
}

// 1 / √x to about 35 digits, and x where it is a NaN.
#[tactic(auto, unfolding(crate::specs::Candidates::inverse_root))]
fn inverse_root(x: f64) -> f64
    ensures { result ≡ inverse_root x }
{
    if x.is_nan() {
        return x;
    }
    let h = x * 0.5;
    let y = doubles::inverse_root_guess(x.to_bits() & 0x7fff_ffff_ffff_ffff);
    newton(h, newton(h, newton(h, y)))
}

// The u from 0 to 1 with u²(3 + u) = 3z², to about 21 digits.
#[tactic(auto, unfolding(crate::specs::Candidates::polynomial_of))]
fn polynomial(z: f64) -> f64
    ensures { result ≡ polynomial_of z }
{
    z * (0.9999997538490448
        - z * (0.16664560634134723
            - z * (0.06914047610912068
                - z * (0.03532343223419922
                    - z * (0.017374709989605427
                        - z * (0.006273791913153995 - z * 0.00111320671431327))))))
}

// 2(1 + t) - u²(3 + u), where w is 1 + t rounded, and u² the sum of square and rest. Each difference is exact.
#[tactic(auto, unfolding(crate::specs::Candidates::excess_of))]
fn excess(t: f64, w: f64, u: f64, square: f64, rest: f64) -> f64
    ensures { result ≡ excess_of t w u square rest }
{
    2.0 * w - 3.0 * square - u * square - (3.0 + u) * rest + 2.0 * (t - (w - 1.0))
}

// The d with (u + d)²(3 + u + d) = u²(3 + u) + f, by a step of Halley's method.
#[tactic(auto, unfolding(crate::specs::Candidates::correction_of))]
fn correction(u: f64, f: f64) -> f64
    ensures { result ≡ correction_of u f }
{
    let slope = u * (3.0 * u + 6.0);
    f * slope / (slope * slope + f * (3.0 * u + 3.0))
}

// With (1 + v) / 2 for the cosine, v²(3 + v) = 2(1 + t). Here v is u + d, where u has 23 digits and d is small, and u²
// is the sum of square, of 26 digits, and rest.
#[derive(Clone, Copy)]
pub struct Estimate {
    pub u: f64,
    pub d: f64,
    pub square: f64,
    pub rest: f64,
}

#[tactic(auto, unfolding(crate::specs::Candidates::lead_of, crate::specs::Candidates::split_square))]
pub fn estimated(t: f64) -> Estimate
    ensures { Estimated t result.u result.d result.square result.rest }
{
    let w = 1.0 + t;
    let x = w * 0.6666666666666666;
    let u = leading_digits(polynomial(x * inverse_root(x)), 1073741825.0);
    let square = leading_digits(u * u, 134217729.0);
    let rest = u * u - square;
    Estimate {
        u,
        d: correction(u, excess(t, w, u, square, rest)),
        square,
        rest,
    }
}

// √(a + e), where e is small, and y is near 1 / √a.
#[tactic(auto, unfolding(crate::specs::Candidates::near_root))]
fn near_root(a: f64, e: f64, y: f64) -> f64
    ensures { result ≡ near_root a e y }
{
    let s = leading_digits(y * (a + 0.5 * e), 134217729.0);
    let f = a - s * s + e;
    s + f / (2.0 * s + f * (0.5 * y))
}

// The sine for a t near 1, where 3 - 2v - v² has few digits: a series, and a step of Newton's method for
// 9s² - 24s⁴ + 16s⁶ = 2w - w² with w for 1 - t.
#[tactic(auto, unfolding(crate::specs::Candidates::small_sine))]
fn small_sine(t: f64) -> f64
    ensures { result ≡ small_sine t }
{
    let w = 1.0 - t;
    let x = 2.0 * w;
    let y = inverse_root(x);
    let s = leading_digits(
        x * y * 0.3333333333333333 * (1.0 + w * (0.046296296296296294 + w * 0.0099)),
        1073741825.0,
    );
    let q = s * s;
    let f = x - 9.0 * q + (24.0 * q * q - w * w - 16.0 * q * q * q);
    s + f / (2.0 * s * (9.0 - 48.0 * q * (1.0 - q)) + f * y * (1.5 - 24.0 * q))
}

pub fn cosine_candidate(e: Estimate) -> f64
    ensures { result ≡ cosine_candidate e.u e.d }
{
    0.5 + 0.5 * e.u + 0.5 * e.d
}

// √(3 - 2v - v²) / 2. The rounding error of the main term is part of the small one.
#[tactic(auto, unfolding(crate::specs::Candidates::large_sine))]
fn large_sine(e: Estimate) -> f64
    ensures { result ≡ large_sine e.u e.d e.square e.rest }
{
    let b = 3.0 - 2.0 * e.u;
    let a = b - e.square;
    let small = b - a - e.square - e.rest - e.d * (2.0 + 2.0 * e.u + e.d);
    0.5 * near_root(a, small, inverse_root(a))
}

#[tactic(auto, unfolding(crate::specs::Candidates::sine_candidate))]
pub fn sine_candidate(t: f64, e: Estimate) -> f64
    ensures { result ≡ sine_candidate t e.u e.d e.square e.rest }
{
    if t > 0.9921875 {
        return small_sine(t);
    }
    large_sine(e)
}
