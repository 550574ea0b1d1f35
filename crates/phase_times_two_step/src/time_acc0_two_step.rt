// Phase times of the four tries of time_acc0_two_step.

ghost use Rattle.std.specs.Prelude.{◌≡◌};
ghost use Rattle.phase_times_two_step.specs.TimeAcc0TwoStep.{times_acc0_two_step, times_acc0_removed_pf};
ghost use Rattle.phase_times_two_step.specs.TimeAcc0TwoStep.{acc0_removed_a_max_h0, acc0_removed_a_max_radicand};
ghost use Rattle.phase_times_two_step.specs.TimeAcc0TwoStep.{times_acc0_removed_a_max, times_acc0_to_a_min};

use phase_times::constants::Constants;
use profile::{Limits, Start, Target};

// Two step.
#[tactic(auto, unfolding(crate::specs::TimeAcc0TwoStep::times_acc0_two_step))]
pub fn times_acc0_two_step(start: Start, target: Target, k: Constants, m: Limits) -> [f64; 7]
    ensures { result ≡ times_acc0_two_step start target k m }
{
    let t1 = (k.af_af - k.a0_a0 + 2.0 * m.j_max * (target.vf - start.v0))
        / (2.0 * start.a0 * m.j_max);
    let t2 = (start.a0 - target.af) / m.j_max;
    [0.0, t1, t2, 0.0, 0.0, 0.0, 0.0]
}

// Three step, removed pf.
#[tactic(auto, unfolding(crate::specs::TimeAcc0TwoStep::times_acc0_removed_pf))]
pub fn times_acc0_removed_pf(start: Start, target: Target, k: Constants, m: Limits) -> [f64; 7]
    ensures { result ≡ times_acc0_removed_pf start target k m }
{
    let t0 = (-start.a0 + m.a_max) / m.j_max;
    let t1 = (k.a0_a0 + k.af_af - 2.0 * m.a_max * m.a_max + 2.0 * m.j_max * (target.vf - start.v0))
        / (2.0 * m.a_max * m.j_max);
    let t2 = (-target.af + m.a_max) / m.j_max;
    [t0, t1, t2, 0.0, 0.0, 0.0, 0.0]
}

#[tactic(auto, unfolding(crate::specs::TimeAcc0TwoStep::acc0_removed_a_max_h0))]
pub fn acc0_removed_a_max_h0(start: Start, target: Target, k: Constants, m: Limits) -> f64
    ensures { result ≡ acc0_removed_a_max_h0 start target k m }
{
    3.0 * (k.af_af - k.a0_a0 + 2.0 * m.j_max * (start.v0 + target.vf))
}

// h1 is the square root of it, scaled.
#[tactic(auto, unfolding(crate::specs::TimeAcc0TwoStep::acc0_removed_a_max_radicand))]
pub fn acc0_removed_a_max_radicand(
    start: Start,
    target: Target,
    k: Constants,
    m: Limits,
    h0: f64,
) -> f64
    ensures { result ≡ acc0_removed_a_max_radicand start target k m h0 }
{
    let h2 = k.a0_p3
        + 2.0 * k.af_p3
        + 6.0 * k.j_max_j_max * k.pd
        + 6.0 * (target.af - start.a0) * m.j_max * target.vf
        - 3.0 * start.a0 * k.af_af;
    2.0 * (2.0 * h2 * h2
        + h0 * (k.a0_p4 - 6.0 * k.a0_a0 * (k.af_af + 2.0 * m.j_max * target.vf)
            + 8.0
                * start.a0
                * (k.af_p3 + 3.0 * k.j_max_j_max * k.pd + 3.0 * target.af * m.j_max * target.vf)
            - 3.0
                * (k.af_p4
                    + 4.0 * k.af_af * m.j_max * target.vf
                    + 4.0 * k.j_max_j_max * (k.vf_vf - k.v0_v0))))
}

// Three step, removed a_max.
#[tactic(auto, unfolding(crate::specs::TimeAcc0TwoStep::times_acc0_removed_a_max))]
pub fn times_acc0_removed_a_max(
    start: Start,
    target: Target,
    k: Constants,
    m: Limits,
    h0: f64,
    h1: f64,
) -> [f64; 7]
    ensures { result ≡ times_acc0_removed_a_max start target k m h0 h1 }
{
    let t0 = (4.0 * k.af_p3 + 2.0 * k.a0_p3 - 6.0 * start.a0 * k.af_af
        + 12.0 * k.j_max_j_max * k.pd
        + 12.0 * (target.af - start.a0) * m.j_max * target.vf
        + h1)
        / (2.0 * m.j_max * h0);
    let t1 = -h1 / (m.j_max * h0);
    let t2 = (-4.0 * k.a0_p3 - 2.0 * k.af_p3
        + 6.0 * k.a0_a0 * target.af
        + 12.0 * k.j_max_j_max * k.pd
        - 12.0 * (target.af - start.a0) * m.j_max * start.v0
        + h1)
        / (2.0 * m.j_max * h0);
    [t0, t1, t2, 0.0, 0.0, 0.0, 0.0]
}

// Three step, t = (a_max - a_min) / j_max.
#[tactic(auto, unfolding(crate::specs::TimeAcc0TwoStep::times_acc0_to_a_min))]
pub fn times_acc0_to_a_min(start: Start, target: Target, k: Constants, m: Limits) -> [f64; 7]
    ensures { result ≡ times_acc0_to_a_min start target k m }
{
    let t = (m.a_max - m.a_min) / m.j_max;
    let t0 = (-start.a0 + m.a_max) / m.j_max;
    let t1 = (k.a0_a0 - k.af_af) / (2.0 * m.a_max * m.j_max)
        + (target.vf - start.v0 + m.j_max * t * t) / m.a_max
        - 2.0 * t;
    let t6 = (target.af - m.a_min) / m.j_max;
    [t0, t1, t, 0.0, 0.0, 0.0, t6]
}
