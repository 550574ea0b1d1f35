// `solve_resolvent`: the zeros of a cubic from which a quartic's factors come.
ghost use Rattle.std.specs.Prelude.{◌≡◌};
ghost use Rattle.roots.specs.Resolvent.{zero_count, zero_numbers, clamped_ratio, three_zeros, cube_root, quotient};
ghost use Rattle.roots.specs.Resolvent.{few_zeros, resolvent_of};

use cbrt::cbrt;
use doubles::{abs, max, min};
use sqrt::sqrt;
use third_angle_pair::third_angle_pair;

const COS_120: f64 = -0.50;

const SIN_120: f64 = 0.8660254037844386;
// 3.0_f64.sqrt()
const SQRT_3: f64 = 1.7320508075688772;

// The real zeros: one, with the real and the imaginary part of a complex one behind it; two, the second of which is
// double; or three.
#[derive(Clone, Copy)]
pub enum Zeros {
    One(f64, f64, f64),
    Two(f64, f64),
    Three(f64, f64, f64),
}

// As the Rust has them: a count of zeros and three numbers.
impl Zeros {
    pub fn count(self) -> usize
        ensures { result ≡ zero_count self }
    {
        match self {
            Zeros::One(_, _, _) => 1,
            Zeros::Two(_, _) => 2,
            Zeros::Three(_, _, _) => 3,
        }
    }

    // Of two zeros the double one is there twice.
    pub fn numbers(self) -> [f64; 3]
        ensures { result ≡ zero_numbers self }
    {
        match self {
            Zeros::Two(x, y) => [x, y, y],
            Zeros::One(x, y, z) | Zeros::Three(x, y, z) => [x, y, z],
        }
    }
}

// The zeros of x³ + a x² + b x + c.
#[tactic(auto, unfolding(crate::specs::Resolvent::resolvent_of))]
pub fn solve_resolvent(a: f64, b: f64, c: f64) -> Zeros
    ensures { result ≡ resolvent_of a b c }
{
    let third = a / 3.0;
    let a2 = third * third;
    let q = a2 - b / 3.0;
    let r = (third * (2.0 * a2 - b) + c) / 2.0;
    let r2 = r * r;
    let q3 = q * q * q;
    if r2 < q3 {
        return three_zeros(third, q, r);
    }
    let u = cube_root(r, r2 - q3);
    few_zeros(third, u, quotient(q, u))
}

#[tactic(auto, unfolding(crate::specs::Resolvent::three_zeros))]
fn three_zeros(third: f64, q: f64, r: f64) -> Zeros
    ensures { result ≡ three_zeros third q r }
{
    let q_sqrt = sqrt(q);
    let pair = third_angle_pair(clamped_ratio(q, q_sqrt, r));
    let factor = -2.0 * q_sqrt;
    let ux = pair.cos * factor;
    let uyi = pair.sin * factor;
    Zeros::Three(
        ux - third,
        ux * COS_120 - uyi * SIN_120 - third,
        ux * COS_120 + uyi * SIN_120 - third,
    )
}

// The Rust's t, from -1 to 1: where the quotient is a NaN, `min` gives 1.
#[tactic(auto, unfolding(crate::specs::Resolvent::clamped_ratio))]
fn clamped_ratio(q: f64, q_sqrt: f64, r: f64) -> f64
    ensures { result ≡ clamped_ratio q q_sqrt r }
{
    max(min(r / (q * q_sqrt), 1.0), -1.0)
}

// The Rust's a_.
#[tactic(auto, unfolding(crate::specs::Resolvent::cube_root))]
fn cube_root(r: f64, discriminant: f64) -> f64
    ensures { result ≡ cube_root r discriminant }
{
    let u = cbrt(-abs(r) - sqrt(discriminant));
    if r < 0.0 { -u } else { u }
}

// The Rust's b_.
#[tactic(auto, unfolding(crate::specs::Resolvent::quotient))]
fn quotient(q: f64, u: f64) -> f64
    ensures { result ≡ quotient q u }
{
    if u == 0.0 { 0.0 } else { q / u }
}

#[tactic(auto, using(crate::proofs::Constants::sqrt_three), unfolding(crate::specs::Resolvent::few_zeros))]
fn few_zeros(third: f64, u: f64, v: f64) -> Zeros
    ensures { result ≡ few_zeros third u v }
{
    let x0 = (u + v) - third;
    let x1 = -(u + v) / 2.0 - third;
    let x2 = SQRT_3 * (u - v) / 2.0;
    if abs(x2) < f64::EPSILON {
        return Zeros::Two(x0, x1);
    }
    Zeros::One(x0, x1, x2)
}
