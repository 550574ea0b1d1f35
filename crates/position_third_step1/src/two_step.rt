// The two-step families, which are tried where no other found anything. Each of their tries is always made.

ghost use Rattle.std.specs.Prelude.{◌≡◌};
ghost use Rattle.position_third_step1.specs.Slots.{TimesAt};
ghost use Rattle.position_third_step1.specs.TwoStep.{none_two_step_shared, vel_two_step_shared, times_removed_a_max};
ghost use Rattle.position_third_step1.specs.TwoStep.{none_two_step_slots, acc0_two_step_slots, vel_two_step_slots};

use crate::all_vel::t_acc1;
use crate::families::Shared;
use phase_times::constants::Constants;
use phase_times_two_step::scaled_root::scaled_root;
use phase_times_two_step::time_acc0_two_step::{
    acc0_removed_a_max_h0, acc0_removed_a_max_radicand, times_acc0_removed_a_max,
    times_acc0_removed_pf, times_acc0_to_a_min, times_acc0_two_step,
};
use phase_times_two_step::time_none_two_step::{
    none_two_step_radicand, times_none_single_step, times_none_two_step,
};
use phase_times_two_step::time_vel_two_step::{times_vel_phase_0, times_vel_phase_2};
use profile::{Limits, Start, Target};
use sqrt::sqrt;

#[tactic(auto, unfolding(crate::specs::TwoStep::none_two_step_shared))]
pub fn none_two_step_shared(start: Start, target: Target, k: Constants, m: Limits) -> Shared
    ensures { result ≡ none_two_step_shared start target k m }
{
    let h0 = scaled_root(m, sqrt(none_two_step_radicand(start, target, k, m)));
    Shared::numbers(h0, 0.0, 0.0, 0.0)
}

// Two step; single step.
#[tactic(auto, unfolding(crate::specs::Slots::always))]
pub fn none_two_step_times(start: Start, target: Target, m: Limits, s: Shared, i: usize) -> [f64; 7]
    ensures { TimesAt (none_two_step_slots start target m s) i result }
{
    match i {
        0 => times_none_two_step(start, target, m, s.h0),
        _ => times_none_single_step(start, target, m),
    }
}

fn times_removed_a_max(start: Start, target: Target, k: Constants, m: Limits) -> [f64; 7]
    ensures { result ≡ times_removed_a_max start target k m }
{
    let h0 = acc0_removed_a_max_h0(start, target, k, m);
    let radicand = acc0_removed_a_max_radicand(start, target, k, m, h0);
    let h1 = scaled_root(m, sqrt(radicand));
    times_acc0_removed_a_max(start, target, k, m, h0, h1)
}

// Two step; three step, removed pf; three step, removed a_max; three step with t = (a_max - a_min) / j_max.
#[tactic(auto, unfolding(crate::specs::Slots::always))]
pub fn acc0_two_step_times(
    start: Start,
    target: Target,
    k: Constants,
    m: Limits,
    i: usize,
) -> [f64; 7]
    ensures { TimesAt (acc0_two_step_slots start target k m) i result }
{
    match i {
        0 => times_acc0_two_step(start, target, k, m),
        1 => times_acc0_removed_pf(start, target, k, m),
        2 => times_removed_a_max(start, target, k, m),
        _ => times_acc0_to_a_min(start, target, k, m),
    }
}

#[tactic(auto, unfolding(crate::specs::TwoStep::vel_two_step_shared))]
pub fn vel_two_step_shared(target: Target, k: Constants, m: Limits) -> Shared
    ensures { result ≡ vel_two_step_shared target k m }
{
    Shared::numbers(0.0, t_acc1(target, k, m), 0.0, 0.0)
}

// Phase 0 takes the acceleration to 0; phase 2 does.
#[tactic(auto, unfolding(crate::specs::Slots::always))]
pub fn vel_two_step_times(
    start: Start,
    target: Target,
    k: Constants,
    m: Limits,
    s: Shared,
    i: usize,
) -> [f64; 7]
    ensures { TimesAt (vel_two_step_slots start target k m s) i result }
{
    match i {
        0 => times_vel_phase_0(start, target, k, m, s.h1),
        _ => times_vel_phase_2(start, target, k, m, s.h1),
    }
}
