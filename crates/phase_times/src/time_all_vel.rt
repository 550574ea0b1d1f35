// Phase times of the four tries of time_all_vel, and what its square roots are taken of.

ghost use Rattle.std.specs.Prelude.{◌≡◌};
ghost use Rattle.phase_times.specs.TimeAllVel.{t_acc0_radicand, t_acc1_radicand, t3_acc0_acc1_vel};
ghost use Rattle.phase_times.specs.TimeAllVel.{times_acc0_acc1_vel, times_acc1_vel, times_acc0_vel, times_vel};

use crate::constants::Constants;
use profile::{Limits, Start, Target};

// t_acc0 is the square root of it.
#[tactic(auto, unfolding(crate::specs::TimeAllVel::t_acc0_radicand))]
pub fn t_acc0_radicand(start: Start, k: Constants, m: Limits) -> f64
    ensures { result ≡ t_acc0_radicand start k m }
{
    k.a0_a0 / (2.0 * k.j_max_j_max) + (m.v_max - start.v0) / m.j_max
}

// t_acc1 is the square root of it, and so is h1 of time_vel_two_step.
#[tactic(auto, unfolding(crate::specs::TimeAllVel::t_acc1_radicand))]
pub fn t_acc1_radicand(target: Target, k: Constants, m: Limits) -> f64
    ensures { result ≡ t_acc1_radicand target k m }
{
    k.af_af / (2.0 * k.j_max_j_max) + (m.v_max - target.vf) / m.j_max
}

#[tactic(auto, unfolding(crate::specs::TimeAllVel::t3_acc0_acc1_vel))]
fn t3_acc0_acc1_vel(start: Start, target: Target, k: Constants, m: Limits) -> f64
    ensures { result ≡ t3_acc0_acc1_vel start target k m }
{
    (3.0 * (k.a0_p4 * m.a_min - k.af_p4 * m.a_max)
        + 8.0
            * m.a_max
            * m.a_min
            * (k.af_p3 - k.a0_p3 + 3.0 * m.j_max * (start.a0 * start.v0 - target.af * target.vf))
        + 6.0 * k.a0_a0 * m.a_min * (m.a_max * m.a_max - 2.0 * m.j_max * start.v0)
        - 6.0 * k.af_af * m.a_max * (m.a_min * m.a_min - 2.0 * m.j_max * target.vf)
        - 12.0
            * m.j_max
            * (m.a_max
                * m.a_min
                * (m.a_max * (start.v0 + m.v_max)
                    - m.a_min * (target.vf + m.v_max)
                    - 2.0 * m.j_max * k.pd)
                + (m.a_min - m.a_max) * m.j_max * m.v_max * m.v_max
                + m.j_max * (m.a_max * k.vf_vf - m.a_min * k.v0_v0)))
        / (24.0 * m.a_max * m.a_min * k.j_max_j_max * m.v_max)
}

// ACC0_ACC1_VEL.
#[tactic(auto, unfolding(crate::specs::TimeAllVel::times_acc0_acc1_vel))]
pub fn times_acc0_acc1_vel(start: Start, target: Target, k: Constants, m: Limits) -> [f64; 7]
    ensures { result ≡ times_acc0_acc1_vel start target k m }
{
    let t0 = (-start.a0 + m.a_max) / m.j_max;
    let t1 = (k.a0_a0 / 2.0 - m.a_max * m.a_max - m.j_max * (start.v0 - m.v_max))
        / (m.a_max * m.j_max);
    let t2 = m.a_max / m.j_max;
    let t4 = -m.a_min / m.j_max;
    let t5 = -(k.af_af / 2.0 - m.a_min * m.a_min - m.j_max * (target.vf - m.v_max))
        / (m.a_min * m.j_max);
    let t6 = t4 + target.af / m.j_max;
    [
        t0,
        t1,
        t2,
        t3_acc0_acc1_vel(start, target, k, m),
        t4,
        t5,
        t6,
    ]
}

// ACC1_VEL: phases 4 to 6 stay as the try before, ACC0_ACC1_VEL, left them.
#[tactic(auto, unfolding(crate::specs::TimeAllVel::times_acc1_vel))]
pub fn times_acc1_vel(
    start: Start,
    target: Target,
    k: Constants,
    m: Limits,
    t_acc0: f64,
    acc0_acc1_vel: [f64; 7],
) -> [f64; 7]
    ensures { result ≡ times_acc1_vel start target k m t_acc0 acc0_acc1_vel }
{
    let t0 = t_acc0 - start.a0 / m.j_max;
    let t3 = -(3.0 * k.af_p4
        - 8.0 * m.a_min * (k.af_p3 - k.a0_p3)
        - 24.0 * m.a_min * m.j_max * (start.a0 * start.v0 - target.af * target.vf)
        + 6.0 * k.af_af * (m.a_min * m.a_min - 2.0 * m.j_max * target.vf)
        - 12.0
            * m.j_max
            * (2.0 * m.a_min * m.j_max * k.pd
                + m.a_min * m.a_min * (target.vf + m.v_max)
                + m.j_max * (m.v_max * m.v_max - k.vf_vf)
                + m.a_min * t_acc0 * (k.a0_a0 - 2.0 * m.j_max * (start.v0 + m.v_max))))
        / (24.0 * m.a_min * k.j_max_j_max * m.v_max);
    [
        t0,
        0.0,
        t_acc0,
        t3,
        acc0_acc1_vel[4],
        acc0_acc1_vel[5],
        acc0_acc1_vel[6],
    ]
}

// ACC0_VEL.
#[tactic(auto, unfolding(crate::specs::TimeAllVel::times_acc0_vel))]
pub fn times_acc0_vel(
    start: Start,
    target: Target,
    k: Constants,
    m: Limits,
    t_acc1: f64,
) -> [f64; 7]
    ensures { result ≡ times_acc0_vel start target k m t_acc1 }
{
    let t0 = (-start.a0 + m.a_max) / m.j_max;
    let t1 = (k.a0_a0 / 2.0 - m.a_max * m.a_max - m.j_max * (start.v0 - m.v_max))
        / (m.a_max * m.j_max);
    let t2 = m.a_max / m.j_max;
    let t3 = (3.0 * k.a0_p4
        + 8.0 * m.a_max * (k.af_p3 - k.a0_p3)
        + 24.0 * m.a_max * m.j_max * (start.a0 * start.v0 - target.af * target.vf)
        + 6.0 * k.a0_a0 * (m.a_max * m.a_max - 2.0 * m.j_max * start.v0)
        - 12.0
            * m.j_max
            * (-2.0 * m.a_max * m.j_max * k.pd
                + m.a_max * m.a_max * (start.v0 + m.v_max)
                + m.j_max * (m.v_max * m.v_max - k.v0_v0)
                + m.a_max * t_acc1 * (-k.af_af + 2.0 * (target.vf + m.v_max) * m.j_max)))
        / (24.0 * m.a_max * k.j_max_j_max * m.v_max);
    let t6 = t_acc1 + target.af / m.j_max;
    [t0, t1, t2, t3, t_acc1, 0.0, t6]
}

// VEL: phases 4 to 6 stay as the try before, ACC0_VEL, left them.
#[tactic(auto, unfolding(crate::specs::TimeAllVel::times_vel))]
pub fn times_vel(
    start: Start,
    target: Target,
    k: Constants,
    m: Limits,
    t_acc0: f64,
    t_acc1: f64,
    acc0_vel: [f64; 7],
) -> [f64; 7]
    ensures { result ≡ times_vel start target k m t_acc0 t_acc1 acc0_vel }
{
    let t0 = t_acc0 - start.a0 / m.j_max;
    let t3 = (k.af_p3 - k.a0_p3) / (3.0 * k.j_max_j_max * m.v_max)
        + (start.a0 * start.v0 - target.af * target.vf
            + (k.af_af * t_acc1 + k.a0_a0 * t_acc0) / 2.0)
            / (m.j_max * m.v_max)
        - (start.v0 / m.v_max + 1.0) * t_acc0
        - (target.vf / m.v_max + 1.0) * t_acc1
        + k.pd / m.v_max;
    [t0, 0.0, t_acc0, t3, acc0_vel[4], acc0_vel[5], acc0_vel[6]]
}
