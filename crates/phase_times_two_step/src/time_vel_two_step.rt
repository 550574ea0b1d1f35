// Phase times of the two tries of time_vel_two_step. h1 is the square root of t_acc1_radicand.

ghost use Rattle.std.specs.Prelude.{◌≡◌};
ghost use Rattle.phase_times_two_step.specs.TimeVelTwoStep.{times_vel_phase0, times_vel_phase2};

use phase_times::constants::Constants;
use profile::{Limits, Start, Target};

// Four step, phase 0 takes the acceleration to 0.
#[tactic(auto, unfolding(crate::specs::TimeVelTwoStep::times_vel_phase0))]
pub fn times_vel_phase_0(start: Start, target: Target, k: Constants, m: Limits, h1: f64) -> [f64; 7]
    ensures { result ≡ times_vel_phase0 start target k m h1 }
{
    let t0 = -start.a0 / m.j_max;
    let t3 = (k.af_p3 - k.a0_p3) / (3.0 * k.j_max_j_max * m.v_max)
        + (start.a0 * start.v0 - target.af * target.vf + (k.af_af * h1) / 2.0) / (m.j_max * m.v_max)
        - (target.vf / m.v_max + 1.0) * h1
        + k.pd / m.v_max;
    let t6 = h1 + target.af / m.j_max;
    [t0, 0.0, 0.0, t3, h1, 0.0, t6]
}

// Four step, phase 2 takes the acceleration to 0.
#[tactic(auto, unfolding(crate::specs::TimeVelTwoStep::times_vel_phase2))]
pub fn times_vel_phase_2(start: Start, target: Target, k: Constants, m: Limits, h1: f64) -> [f64; 7]
    ensures { result ≡ times_vel_phase2 start target k m h1 }
{
    let t2 = start.a0 / m.j_max;
    let t3 = (k.af_p3 - k.a0_p3) / (3.0 * k.j_max_j_max * m.v_max)
        + (start.a0 * start.v0 - target.af * target.vf + (k.af_af * h1 + k.a0_p3 / m.j_max) / 2.0)
            / (m.j_max * m.v_max)
        - (start.v0 / m.v_max + 1.0) * start.a0 / m.j_max
        - (target.vf / m.v_max + 1.0) * h1
        + k.pd / m.v_max;
    let t6 = h1 + target.af / m.j_max;
    [0.0, 0.0, t2, t3, h1, 0.0, t6]
}
