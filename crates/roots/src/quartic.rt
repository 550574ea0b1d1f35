// `solve_quart_monic_coeffs`: the roots of a quartic, by its two quadratic factors.
ghost use Rattle.std.specs.Prelude.{◌≡◌};
ghost use Rattle.roots.specs.Quartic.{with_quadratic, larger, largest_zero, equal_constants, factors_of};
ghost use Rattle.roots.specs.Quartic.{roots_by_factors, quartic_of};

use crate::list::Roots;
use crate::resolvent::{Zeros, solve_resolvent};
use cbrt::cbrt;
use doubles::abs;
use sqrt::sqrt;

const EPS_M_BY_16: f64 = 16.0 * f64::EPSILON;

// The roots of x⁴ + a x³ + b x² + c x + d that are at least 0. The four are loose, and named so, as in the Rust, whose
// formulas follow; `Quartic` is of a crate that this one doesn't use, and names them otherwise.
#[tactic(auto, unfolding(crate::specs::Quartic::quartic_of))]
pub fn solve_quart_monic_coeffs(a: f64, b: f64, c: f64, d: f64) -> Roots
    ensures { result ≡ quartic_of a b c d }
{
    let no_constant = abs(d) < f64::EPSILON;
    if no_constant & (abs(c) < f64::EPSILON) {
        return with_quadratic(Roots::new().insert(0.0), a, b, f64::EPSILON);
    }
    if no_constant & (abs(a) < f64::EPSILON) & (abs(b) < f64::EPSILON) {
        return Roots::new().insert(0.0).insert(-cbrt(c));
    }
    roots_by_factors(a, b, c, d)
}

// The list with the roots of x² + p x + q: one where the discriminant is within the tolerance of 0, two where it is
// above 0.
#[tactic(auto, unfolding(crate::specs::Quartic::with_quadratic))]
fn with_quadratic(roots: Roots, p: f64, q: f64, tolerance: f64) -> Roots
    ensures { result ≡ with_quadratic roots p q tolerance }
{
    let discriminant = p * p - 4.0 * q;
    if abs(discriminant) < tolerance {
        return roots.insert(-p / 2.0);
    }
    if discriminant > 0.0 {
        let sqrt_d = sqrt(discriminant);
        return roots
            .insert((-p - sqrt_d) / 2.0)
            .insert((-p + sqrt_d) / 2.0);
    }
    roots
}

#[tactic(auto, using(crate::proofs::Constants::eps_by_16), unfolding(crate::specs::Quartic::roots_by_factors))]
fn roots_by_factors(a: f64, b: f64, c: f64, d: f64) -> Roots
    ensures { result ≡ roots_by_factors a b c d }
{
    let zeros = solve_resolvent(-b, a * c - 4.0 * d, -(a * a) * d - c * c + 4.0 * b * d);
    let f = factors_of(a, b, c, d, largest_zero(zeros));
    with_quadratic(
        with_quadratic(Roots::new(), f.p1, f.q1, EPS_M_BY_16),
        f.p2,
        f.q2,
        EPS_M_BY_16,
    )
}

// The Rust's y: of the resolvent's zeros the one with the largest absolute value.
#[tactic(auto, unfolding(crate::specs::Quartic::largest_zero))]
fn largest_zero(zeros: Zeros) -> f64
    ensures { result ≡ largest_zero zeros }
{
    match zeros {
        Zeros::One(x, _, _) => x,
        Zeros::Two(x, y) => larger(x, y),
        Zeros::Three(x, y, z) => larger(larger(x, y), z),
    }
}

#[tactic(auto, unfolding(crate::specs::Quartic::larger))]
fn larger(x: f64, y: f64) -> f64
    ensures { result ≡ larger x y }
{
    if abs(y) > abs(x) { y } else { x }
}

// The factors x² + p1 x + q1 and x² + p2 x + q2.
#[derive(Clone, Copy)]
struct Factors {
    p1: f64,
    q1: f64,
    p2: f64,
    q2: f64,
}

#[tactic(auto, unfolding(crate::specs::Quartic::factors_of))]
fn factors_of(a: f64, b: f64, c: f64, d: f64, y: f64) -> Factors
    ensures { result ≡ factors_of a b c d y }
{
    let discriminant = y * y - 4.0 * d;
    if abs(discriminant) < f64::EPSILON {
        return equal_constants(a, b, y);
    }
    let sqrt_d = sqrt(discriminant);
    let q1 = (y + sqrt_d) / 2.0;
    let q2 = (y - sqrt_d) / 2.0;
    Factors {
        p1: (a * q1 - c) / (q1 - q2),
        q1,
        p2: (c - a * q2) / (q1 - q2),
        q2,
    }
}

// The factors where q1 and q2 are taken for equal.
#[tactic(auto, unfolding(crate::specs::Quartic::equal_constants))]
fn equal_constants(a: f64, b: f64, y: f64) -> Factors
    ensures { result ≡ equal_constants a b y }
{
    let q = y / 2.0;
    let discriminant = a * a - 4.0 * (b - y);
    if abs(discriminant) < f64::EPSILON {
        let p = a / 2.0;
        return Factors {
            p1: p,
            q1: q,
            p2: p,
            q2: q,
        };
    }
    let sqrt_d = sqrt(discriminant);
    Factors {
        p1: (a + sqrt_d) / 2.0,
        q1: q,
        p2: (a - sqrt_d) / 2.0,
        q2: q,
    }
}
