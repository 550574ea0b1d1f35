// The try ACC1 of time_all_none_acc0_acc1: its polynomial, the correction of a root, and the phase times.

ghost use Rattle.std.specs.Prelude.{◌≡◌};
ghost use Rattle.phase_times_quartic.specs.TimeAcc1.{h0_acc1, h3_acc1, h2_acc1, polynom_acc1, range_acc1, times_acc1};

use crate::quartic::Quartic;
use crate::root_range::RootRange;
use phase_times::constants::Constants;
use profile::{Limits, Start, Target};

#[tactic(auto, unfolding(crate::specs::TimeAcc1::h0_acc1))]
pub fn h0_acc1(start: Start, target: Target, k: Constants, m: Limits) -> f64
    ensures { result ≡ h0_acc1 start target k m }
{
    (k.a0_p4 - k.af_p4) / 4.0
        + 2.0 * (k.af_p3 - k.a0_p3) * m.a_min / 3.0
        + (k.a0_a0 - k.af_af) * m.a_min * m.a_min / 2.0
        + m.j_max
            * (k.af_af * target.vf
                + k.a0_a0 * start.v0
                + 2.0 * m.a_min * (m.j_max * k.pd - start.a0 * start.v0 - target.af * target.vf)
                + m.a_min * m.a_min * (start.v0 + target.vf)
                + m.j_max * (k.v0_v0 - k.vf_vf))
}

#[tactic(auto, unfolding(crate::specs::TimeAcc1::h3_acc1))]
pub fn h3_acc1(start: Start, target: Target, k: Constants, m: Limits) -> f64
    ensures { result ≡ h3_acc1 start target k m }
{
    -(k.a0_a0 + k.af_af) / (2.0 * m.j_max * m.a_min)
        + m.a_min / m.j_max
        + (target.vf - start.v0) / m.a_min
}

#[tactic(auto, unfolding(crate::specs::TimeAcc1::h2_acc1))]
pub fn h2_acc1(start: Start, k: Constants, m: Limits) -> f64
    ensures { result ≡ h2_acc1 start k m }
{
    k.a0_a0 - start.a0 * m.a_min + 2.0 * m.j_max * start.v0
}

// The Rust's formula line by line, of which each try has its own (entry 76 of docs/DECISIONS.md).
#[tactic(auto, unfolding(crate::specs::TimeAcc1::polynom_acc1))]
pub fn polynom_acc1(start: Start, k: Constants, m: Limits, h0_acc1: f64, h2_acc1: f64) -> Quartic
    ensures { result ≡ polynom_acc1 start k m h0_acc1 h2_acc1 }
{
    let j_max_j_max = m.j_max * m.j_max;
    let c0 = 2.0 * (2.0 * start.a0 - m.a_min) / m.j_max;
    let c1 = (5.0 * k.a0_a0 + m.a_min * (m.a_min - 6.0 * start.a0) + 2.0 * m.j_max * start.v0)
        / j_max_j_max;
    let c2 = 2.0 * (start.a0 - m.a_min) * h2_acc1 / (j_max_j_max * m.j_max);
    let c3 = h0_acc1 / (k.j_max_j_max * k.j_max_j_max);
    Quartic { c0, c1, c2, c3 }
}

#[tactic(auto, unfolding(crate::specs::TimeAcc1::range_acc1))]
pub fn range_acc1(start: Start, m: Limits) -> RootRange
    ensures { result ≡ range_acc1 start m }
{
    RootRange {
        t_min: (m.a_min - start.a0) / m.j_max,
        t_max: (m.a_max - start.a0) / m.j_max,
    }
}

#[tactic(auto, unfolding(crate::specs::TimeAcc1::times_acc1))]
pub fn times_acc1(start: Start, target: Target, m: Limits, h3_acc1: f64, t: f64) -> [f64; 7]
    ensures { result ≡ times_acc1 start target m h3_acc1 t }
{
    let t2 = (start.a0 - m.a_min) / m.j_max + t;
    let t5 = h3_acc1 - (2.0 * start.a0 + m.j_max * t) * t / m.a_min;
    let t6 = (target.af - m.a_min) / m.j_max;
    [t, 0.0, t2, 0.0, 0.0, t5, t6]
}
