// Which of four profiles goes: "identical" profiles count once.

ghost use Rattle.std.specs.Prelude.{◌≡◌};
ghost use Rattle.block.specs.Selection.{slot, near, alike, alike_removal, removal};

use crate::total;
use profile::Profile;

// Whether two totals are under e apart. With a NaN they aren't.
#[tactic(auto, unfolding(crate::specs::Selection::near))]
pub fn near(e: f64, t: f64, u: f64) -> bool
    ensures { result ≡ near e t u }
{
    doubles::abs(t - u) < e
}

#[tactic(auto, unfolding(crate::specs::Selection::alike))]
fn alike(t: f64, u: f64) -> bool
    ensures { result ≡ alike t u }
{
    near(1e-12 * (1.0 + doubles::abs(t)), t, u)
}

// The later of the first two totals that are alike. Seldom asked, so kept out of line: in line a
// plan takes 1,432 to 1,439 ns, out of line 1,397 to 1,403 (bench, plan_time 201).
#[cold]
#[tactic(auto, unfolding(crate::specs::Selection::alike_removal))]
fn alike_removal(t0: f64, t1: f64, t2: f64, t3: f64) -> Option<usize>
    ensures { result ≡ alike_removal t0 t1 t2 t3 }
{
    let pairs: [(f64, f64, usize); 6] = [
        (t0, t1, 1),
        (t0, t2, 2),
        (t0, t3, 3),
        (t1, t2, 2),
        (t1, t3, 3),
        (t2, t3, 3),
    ];
    let first = pairs.iter().find(|pair| alike(pair.0, pair.1));
    first.map(|pair| pair.2)
}

// The index of the profile that goes. No rule removes the first. Each total has its name, since the rules name them: an
// array made by `map` would be taken apart into the same four.
pub fn removal(profiles: [Profile; 4]) -> Option<usize>
    ensures { result ≡ removal (slot profiles) }
{
    let [p0, p1, p2, p3]: [Profile; 4] = profiles;
    let t0 = total(p0);
    let t1 = total(p1);
    let t2 = total(p2);
    let t3 = total(p3);
    if near(32.0 * f64::EPSILON, t0, t1) & (p0.direction != p1.direction) {
        return Some(1);
    }
    if near(256.0 * f64::EPSILON, t2, t3) & (p2.direction != p3.direction) {
        return Some(3);
    }
    if near(256.0 * f64::EPSILON, t0, t3) {
        return Some(3);
    }
    alike_removal(t0, t1, t2, t3)
}
