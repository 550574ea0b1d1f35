// The try ACC0 of time_all_none_acc0_acc1: its polynomial, the correction of a root, and the phase times.

ghost use Rattle.std.specs.Prelude.{◌≡◌};
ghost use Rattle.phase_times_quartic.specs.TimeAcc0.{h0_acc0, h3_acc0, h2_acc0, range_acc0, polynom_acc0};
ghost use Rattle.phase_times_quartic.specs.TimeAcc0.{newton_acc0, corrected_acc0, times_acc0};

use crate::quartic::Quartic;
use crate::root_range::RootRange;
use phase_times::constants::Constants;
use profile::{Limits, Start, Target};

#[tactic(auto, unfolding(crate::specs::TimeAcc0::h0_acc0))]
pub fn h0_acc0(start: Start, target: Target, k: Constants, m: Limits) -> f64
    ensures { result ≡ h0_acc0 start target k m }
{
    3.0 * (k.af_p4 - k.a0_p4)
        + 8.0 * (k.a0_p3 - k.af_p3) * m.a_max
        + 24.0 * m.a_max * m.j_max * (target.af * target.vf - start.a0 * start.v0)
        - 6.0 * k.a0_a0 * (m.a_max * m.a_max - 2.0 * m.j_max * start.v0)
        + 6.0 * k.af_af * (m.a_max * m.a_max - 2.0 * m.j_max * target.vf)
        + 12.0
            * m.j_max
            * (m.j_max * (k.vf_vf - k.v0_v0 - 2.0 * m.a_max * k.pd)
                - m.a_max * m.a_max * (target.vf - start.v0))
}

#[tactic(auto, unfolding(crate::specs::TimeAcc0::h3_acc0))]
pub fn h3_acc0(start: Start, target: Target, k: Constants, m: Limits) -> f64
    ensures { result ≡ h3_acc0 start target k m }
{
    (k.a0_a0 - k.af_af) / (2.0 * m.a_max * m.j_max) + (target.vf - start.v0) / m.a_max
}

#[tactic(auto, unfolding(crate::specs::TimeAcc0::h2_acc0))]
pub fn h2_acc0(target: Target, k: Constants, m: Limits) -> f64
    ensures { result ≡ h2_acc0 target k m }
{
    -k.af_af + m.a_max * m.a_max + 2.0 * m.j_max * target.vf
}

#[tactic(auto, unfolding(crate::specs::TimeAcc0::range_acc0))]
pub fn range_acc0(target: Target, m: Limits) -> RootRange
    ensures { result ≡ range_acc0 target m }
{
    RootRange {
        t_min: (m.a_max - target.af) / m.j_max,
        t_max: (m.a_max - m.a_min) / m.j_max,
    }
}

// The Rust's formula line by line, of which each try has its own (entry 76 of docs/DECISIONS.md).
#[tactic(auto, unfolding(crate::specs::TimeAcc0::polynom_acc0))]
pub fn polynom_acc0(k: Constants, m: Limits, h0_acc0: f64, h2_acc0: f64) -> Quartic
    ensures { result ≡ polynom_acc0 k m h0_acc0 h2_acc0 }
{
    let j_max_j_max = m.j_max * m.j_max;
    let c0 = -2.0 * m.a_max / m.j_max;
    let c1 = h2_acc0 / j_max_j_max;
    let c3 = h0_acc0 / (12.0 * k.j_max_j_max * k.j_max_j_max);
    Quartic {
        c0,
        c1,
        c2: 0.0,
        c3,
    }
}

// A single Newton step (regarding pd), by the Rust's formula, which the other tries don't share (entry 76 of
// docs/DECISIONS.md).
#[tactic(auto, unfolding(crate::specs::TimeAcc0::newton_acc0))]
fn newton_acc0(k: Constants, m: Limits, h0_acc0: f64, h2_acc0: f64, t: f64) -> f64
    ensures { result ≡ newton_acc0 k m h0_acc0 h2_acc0 t }
{
    let h1 = m.j_max * t;
    let orig = h0_acc0 / (12.0 * k.j_max_j_max * t) + t * (h2_acc0 + h1 * (h1 - 2.0 * m.a_max));
    let deriv = 2.0 * (h2_acc0 + h1 * (2.0 * h1 - 3.0 * m.a_max));
    let delta_t = orig / deriv;
    t - delta_t
}

// A root above EPSILON is corrected once. The test stands in each of the three tries: a function that is given the step
// would be no shorter, and its contract two clauses about a step that it doesn't know.
#[tactic(auto, unfolding(crate::specs::TimeAcc0::corrected_acc0))]
pub fn corrected_acc0(k: Constants, m: Limits, h0_acc0: f64, h2_acc0: f64, t: f64) -> f64
    ensures { result ≡ corrected_acc0 k m h0_acc0 h2_acc0 t }
{
    if t > f64::EPSILON {
        newton_acc0(k, m, h0_acc0, h2_acc0, t)
    } else {
        t
    }
}

#[tactic(auto, unfolding(crate::specs::TimeAcc0::times_acc0))]
pub fn times_acc0(start: Start, target: Target, m: Limits, h3_acc0: f64, t: f64) -> [f64; 7]
    ensures { result ≡ times_acc0 start target m h3_acc0 t }
{
    let t0 = (-start.a0 + m.a_max) / m.j_max;
    let t1 = h3_acc0 - 2.0 * t + (m.j_max / m.a_max) * t * t;
    let t6 = (target.af - m.a_max) / m.j_max + t;
    [t0, t1, t, 0.0, 0.0, 0.0, t6]
}
