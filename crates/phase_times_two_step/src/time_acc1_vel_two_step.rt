// Phase times of time_acc1_vel_two_step.

ghost use Rattle.std.specs.Prelude.{◌≡◌};
ghost use Rattle.phase_times_two_step.specs.TimeAcc1VelTwoStep.{times_acc1_vel_two_step};

use phase_times::constants::Constants;
use profile::{Limits, Start, Target};

#[tactic(auto, unfolding(crate::specs::TimeAcc1VelTwoStep::times_acc1_vel_two_step))]
pub fn times_acc1_vel_two_step(start: Start, target: Target, k: Constants, m: Limits) -> [f64; 7]
    ensures { result ≡ times_acc1_vel_two_step start target k m }
{
    let t2 = start.a0 / m.j_max;
    let t3 = -(3.0 * k.af_p4
        - 8.0 * m.a_min * (k.af_p3 - k.a0_p3)
        - 24.0 * m.a_min * m.j_max * (start.a0 * start.v0 - target.af * target.vf)
        + 6.0 * k.af_af * (m.a_min * m.a_min - 2.0 * m.j_max * target.vf)
        - 12.0
            * m.j_max
            * (2.0 * m.a_min * m.j_max * k.pd
                + m.a_min * m.a_min * (target.vf + m.v_max)
                + m.j_max * (m.v_max * m.v_max - k.vf_vf)
                + m.a_min * start.a0 * (k.a0_a0 - 2.0 * m.j_max * (start.v0 + m.v_max)) / m.j_max))
        / (24.0 * m.a_min * k.j_max_j_max * m.v_max);
    let t4 = -m.a_min / m.j_max;
    let t5 = -(k.af_af / 2.0 - m.a_min * m.a_min + m.j_max * (m.v_max - target.vf))
        / (m.a_min * m.j_max);
    let t6 = t4 + target.af / m.j_max;
    [0.0, 0.0, t2, t3, t4, t5, t6]
}
