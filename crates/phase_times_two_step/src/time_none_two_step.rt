// Phase times of the two tries of time_none_two_step.

ghost use Rattle.std.specs.Prelude.{◌≡◌};
ghost use Rattle.phase_times_two_step.specs.TimeNoneTwoStep.{none_two_step_radicand, times_none_two_step};
ghost use Rattle.phase_times_two_step.specs.TimeNoneTwoStep.{times_none_single_step};

use phase_times::constants::Constants;
use profile::{Limits, Start, Target};

// h0 is the square root of it, scaled.
#[tactic(auto, unfolding(crate::specs::TimeNoneTwoStep::none_two_step_radicand))]
pub fn none_two_step_radicand(start: Start, target: Target, k: Constants, m: Limits) -> f64
    ensures { result ≡ none_two_step_radicand start target k m }
{
    (k.a0_a0 + k.af_af) / 2.0 + m.j_max * (target.vf - start.v0)
}

// Two step.
#[tactic(auto, unfolding(crate::specs::TimeNoneTwoStep::times_none_two_step))]
pub fn times_none_two_step(start: Start, target: Target, m: Limits, h0: f64) -> [f64; 7]
    ensures { result ≡ times_none_two_step start target m h0 }
{
    let t0 = (h0 - start.a0) / m.j_max;
    let t2 = (h0 - target.af) / m.j_max;
    [t0, 0.0, t2, 0.0, 0.0, 0.0, 0.0]
}

// Single step.
#[tactic(auto, unfolding(crate::specs::TimeNoneTwoStep::times_none_single_step))]
pub fn times_none_single_step(start: Start, target: Target, m: Limits) -> [f64; 7]
    ensures { result ≡ times_none_single_step start target m }
{
    let t0 = (target.af - start.a0) / m.j_max;
    [t0, 0.0, 0.0, 0.0, 0.0, 0.0, 0.0]
}
