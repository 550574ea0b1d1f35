// The moves without jerk, tried where j_max, a_max or a_min is 0.

ghost use Rattle.std.specs.Prelude.{◌≡◌, length};
ghost use Rattle.position_third_step1.specs.Slots.{HoldsAt, TimesAt};
ghost use Rattle.position_third_step1.specs.TimeAllSingleStep.{single_step_shared, single_step_slots};

use crate::families::Shared;
use phase_times::constants::Constants;
use phase_times::time_all_single_step::{
    changes_acceleration, has_phase_3, single_step_radicand, starts_accelerated, starts_at_target,
    starts_moving, times_at_constant_speed, times_single_step_solution_1,
    times_single_step_solution_2, zero_times,
};
use profile::{Start, Target};
use sqrt::sqrt;

#[tactic(auto, unfolding(crate::specs::TimeAllSingleStep::single_step_shared))]
pub fn single_step_shared(start: Start, k: Constants) -> Shared
    ensures { result ≡ single_step_shared start k }
{
    Shared::numbers(sqrt(single_step_radicand(start, k)), 0.0, 0.0, 0.0)
}

#[tactic(auto, unfolding(crate::specs::TimeAllSingleStep::single_step_slots))]
pub fn single_step_count(start: Start, target: Target, k: Constants, s: Shared) -> usize
    ensures { result ≡ length (single_step_slots start target k s) }
{
    if changes_acceleration(start, target) {
        0
    } else if starts_accelerated(start) {
        2
    } else {
        1
    }
}

// At constant acceleration two solutions; at constant velocity; at rest.
#[tactic(auto, unfolding(crate::specs::TimeAllSingleStep::single_step_slots))]
pub fn single_step_times(
    start: Start,
    target: Target,
    k: Constants,
    s: Shared,
    i: usize,
) -> [f64; 7]
    ensures { TimesAt (single_step_slots start target k s) i result }
{
    if starts_accelerated(start) {
        match i {
            0 => times_single_step_solution_1(start, s.h0),
            _ => times_single_step_solution_2(start, s.h0),
        }
    } else if starts_moving(start) {
        times_at_constant_speed(start, k)
    } else {
        zero_times()
    }
}

// A solution at constant acceleration whose phase 3 is negative or a NaN is not put to the check.
#[tactic(auto, unfolding(crate::specs::TimeAllSingleStep::single_step_slots))]
pub fn single_step_holds(start: Start, target: Target, k: Constants, s: Shared, i: usize) -> bool
    ensures { HoldsAt (single_step_slots start target k s) i result }
{
    if starts_accelerated(start) {
        has_phase_3(single_step_times(start, target, k, s, i))
    } else if starts_moving(start) {
        true
    } else {
        starts_at_target(k)
    }
}
