// Phase times of time_all_single_step, where no jerk is allowed, and its conditions. Only phase 3 takes time.

ghost use Rattle.std.specs.Prelude.{◌≡◌};
ghost use Rattle.phase_times.specs.TimeAllSingleStep.{changes_acceleration, starts_accelerated, starts_moving};
ghost use Rattle.phase_times.specs.TimeAllSingleStep.{starts_at_target, has_phase3, single_step_radicand};
ghost use Rattle.phase_times.specs.TimeAllSingleStep.{times_single_step_solution1, times_single_step_solution2};
ghost use Rattle.phase_times.specs.TimeAllSingleStep.{times_at_constant_speed, zero_times};

use crate::constants::Constants;
use profile::{Start, Target};

#[tactic(auto, unfolding(crate::specs::TimeAllSingleStep::changes_acceleration))]
pub fn changes_acceleration(start: Start, target: Target) -> bool
    ensures { result ≡ changes_acceleration start target }
{
    doubles::abs(target.af - start.a0) > f64::EPSILON
}

#[tactic(auto, unfolding(crate::specs::TimeAllSingleStep::starts_accelerated))]
pub fn starts_accelerated(start: Start) -> bool
    ensures { result ≡ starts_accelerated start }
{
    doubles::abs(start.a0) > f64::EPSILON
}

#[tactic(auto, unfolding(crate::specs::TimeAllSingleStep::starts_moving))]
pub fn starts_moving(start: Start) -> bool
    ensures { result ≡ starts_moving start }
{
    doubles::abs(start.v0) > f64::EPSILON
}

#[tactic(auto, unfolding(crate::specs::TimeAllSingleStep::starts_at_target))]
pub fn starts_at_target(k: Constants) -> bool
    ensures { result ≡ starts_at_target k }
{
    doubles::abs(k.pd) < f64::EPSILON
}

// False for a NaN.
#[tactic(auto, unfolding(crate::specs::TimeAllSingleStep::has_phase3))]
pub fn has_phase_3(t: [f64; 7]) -> bool
    ensures { result ≡ has_phase3 t }
{
    t[3] >= 0.0
}

// q is the square root of it.
#[tactic(auto, unfolding(crate::specs::TimeAllSingleStep::single_step_radicand))]
pub fn single_step_radicand(start: Start, k: Constants) -> f64
    ensures { result ≡ single_step_radicand start k }
{
    2.0 * start.a0 * k.pd + k.v0_v0
}

#[tactic(auto, unfolding(crate::specs::TimeAllSingleStep::times_single_step_solution1))]
pub fn times_single_step_solution_1(start: Start, q: f64) -> [f64; 7]
    ensures { result ≡ times_single_step_solution1 start q }
{
    let t3 = (-start.v0 + q) / start.a0;
    [0.0, 0.0, 0.0, t3, 0.0, 0.0, 0.0]
}

#[tactic(auto, unfolding(crate::specs::TimeAllSingleStep::times_single_step_solution2))]
pub fn times_single_step_solution_2(start: Start, q: f64) -> [f64; 7]
    ensures { result ≡ times_single_step_solution2 start q }
{
    let t3 = -(start.v0 + q) / start.a0;
    [0.0, 0.0, 0.0, t3, 0.0, 0.0, 0.0]
}

#[tactic(auto, unfolding(crate::specs::TimeAllSingleStep::times_at_constant_speed))]
pub fn times_at_constant_speed(start: Start, k: Constants) -> [f64; 7]
    ensures { result ≡ times_at_constant_speed start k }
{
    let t3 = k.pd / start.v0;
    [0.0, 0.0, 0.0, t3, 0.0, 0.0, 0.0]
}

#[tactic(auto, unfolding(crate::specs::TimeAllSingleStep::zero_times))]
pub fn zero_times() -> [f64; 7]
    ensures { result ≡ zero_times }
{
    [0.0, 0.0, 0.0, 0.0, 0.0, 0.0, 0.0]
}
