// The try NONE of time_all_none_acc0_acc1: its polynomial, the correction of a root, and the phase times.

ghost use Rattle.std.specs.Prelude.{◌≡◌};
ghost use Rattle.phase_times_quartic.specs.TimeNone.{h2_none, polynom_none, newton_none, corrected_none, range_none};
ghost use Rattle.phase_times_quartic.specs.TimeNone.{times_none};

use crate::quartic::Quartic;
use crate::root_range::RootRange;
use phase_times::constants::Constants;
use profile::{Limits, Start, Target};

#[tactic(auto, unfolding(crate::specs::TimeNone::h2_none))]
pub fn h2_none(start: Start, target: Target, k: Constants, m: Limits) -> f64
    ensures { result ≡ h2_none start target k m }
{
    (k.a0_a0 - k.af_af) / (2.0 * m.j_max) + (target.vf - start.v0)
}

// The Rust's formula line by line, of which each try has its own (entry 76 of docs/DECISIONS.md).
#[tactic(auto, unfolding(crate::specs::TimeNone::polynom_none))]
pub fn polynom_none(start: Start, target: Target, k: Constants, m: Limits, h2_none: f64) -> Quartic
    ensures { result ≡ polynom_none start target k m h2_none }
{
    let j_max_j_max = m.j_max * m.j_max;
    let h2_h2 = h2_none * h2_none;
    let c1 = -2.0 * (k.a0_a0 + k.af_af - 2.0 * m.j_max * (start.v0 + target.vf)) / j_max_j_max;
    let c2 = 4.0
        * (k.a0_p3 - k.af_p3 + 3.0 * m.j_max * (target.af * target.vf - start.a0 * start.v0))
        / (3.0 * j_max_j_max * m.j_max)
        - 4.0 * k.pd / m.j_max;
    let c3 = -h2_h2 / j_max_j_max;
    Quartic {
        c0: 0.0,
        c1,
        c2,
        c3,
    }
}

// A single Newton step (regarding pd), by the Rust's formula, which the other tries don't share (entry 76 of
// docs/DECISIONS.md).
#[tactic(auto, unfolding(crate::specs::TimeNone::newton_none))]
fn newton_none(start: Start, target: Target, k: Constants, m: Limits, h2_none: f64, t: f64) -> f64
    ensures { result ≡ newton_none start target k m h2_none t }
{
    let h2_h2 = h2_none * h2_none;
    let h1 = m.j_max * t * t;
    let orig = -h2_h2 / (4.0 * m.j_max * t)
        + h2_none * (target.af / m.j_max + t)
        + (4.0 * k.a0_p3 + 2.0 * k.af_p3 - 6.0 * k.a0_a0 * (target.af + 2.0 * m.j_max * t)
            + 12.0 * (target.af - start.a0) * m.j_max * start.v0
            + 3.0 * k.j_max_j_max * (-4.0 * k.pd + (h1 + 8.0 * start.v0) * t))
            / (12.0 * k.j_max_j_max);
    let deriv = h2_none + 2.0 * start.v0 - k.a0_a0 / m.j_max
        + h2_h2 / (4.0 * h1)
        + (3.0 * h1) / 4.0;
    let delta_t = orig / deriv;
    t - delta_t
}

// A root above EPSILON is corrected once. The test stands in each of the three tries: a function that is given the step
// would be no shorter, and its contract two clauses about a step that it doesn't know.
#[tactic(auto, unfolding(crate::specs::TimeNone::corrected_none))]
pub fn corrected_none(
    start: Start,
    target: Target,
    k: Constants,
    m: Limits,
    h2_none: f64,
    t: f64,
) -> f64
    ensures { result ≡ corrected_none start target k m h2_none t }
{
    if t > f64::EPSILON {
        newton_none(start, target, k, m, h2_none, t)
    } else {
        t
    }
}

#[tactic(auto, unfolding(crate::specs::TimeNone::range_none))]
pub fn range_none(start: Start, target: Target, m: Limits) -> RootRange
    ensures { result ≡ range_none start target m }
{
    RootRange {
        t_min: (start.a0 - target.af) / m.j_max,
        t_max: (m.a_max - m.a_min) / m.j_max,
    }
}

#[tactic(auto, unfolding(crate::specs::TimeNone::times_none))]
pub fn times_none(start: Start, target: Target, m: Limits, h2_none: f64, t: f64) -> [f64; 7]
    ensures { result ≡ times_none start target m h2_none t }
{
    let h0 = h2_none / (2.0 * m.j_max * t);
    let t0 = h0 + t / 2.0 - start.a0 / m.j_max;
    let t6 = -h0 + t / 2.0 + target.af / m.j_max;
    [t0, 0.0, t, 0.0, 0.0, 0.0, t6]
}
