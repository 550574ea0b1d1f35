// An estimate of the square root in float arithmetic. Nothing is claimed of its distance from the root: exact
// whole-number comparison certifies it or not. (It is the nearest double for all but about one normal argument in a
// hundred, and then a neighbour is.)
ghost use Rattle.std.specs.Prelude.{◌≡◌, ◌^◌, ◌<◌};
ghost use Rattle.sqrt.specs.Candidate.{candidate_of};

// With g near 1 / √x and r = 1 - x g²: √x is x g (1 - r)^(-1/2), here s by a polynomial of r as the product f c, to 30
// digits. Then s is corrected by x - s², computed with a, the 26 leading digits of x g, as (x - a²) - (s - a)(s + a).
#[tactic(auto, unfolding(crate::specs::Candidate::candidate_of))]
pub fn candidate(x: f64, b: u64) -> f64
    requires { b < 2 ^ 63 }
    ensures { result ≡ candidate_of x b }
{
    let g = doubles::inverse_root_guess(b);
    let s0 = x * g;
    let r = 1.0 - s0 * g;
    let a = doubles::leading_digits(s0, 134217729.0);
    let f = ((r - 1.4870702493563688) * r + 1.6325932874585307)
        * ((r + 1.234669365946783) * r + 1.8161941768651548);
    let c = (r + 1.3678907232189261) * 0.24655187556334057;
    let s = f * (s0 * c);
    let e = (x - a * a) - (s - a) * (s + a);
    s + e * (f * (0.5 * g * c))
}
