// The tries that reach a_max and a_min: solution 2, then solution 1.

ghost use Rattle.std.specs.Prelude.{◌≡◌, length};
ghost use Rattle.position_third_step1.specs.Slots.{HoldsAt, TimesAt};
ghost use Rattle.position_third_step1.specs.TimeAcc0Acc1.{acc0_acc1_shared, acc0_acc1_slots};

use crate::families::Shared;
use phase_times::constants::Constants;
use phase_times::time_acc0_acc1::{
    acc0_acc1_h1, acc0_acc1_h2, acc0_acc1_h3, acc0_acc1_radicand, admits_acc0_acc1_solution_1,
    admits_acc0_acc1_solution_2, times_acc0_acc1_solution_1, times_acc0_acc1_solution_2,
};
use profile::{Limits, Start, Target};
use sqrt::sqrt;

#[tactic(auto, unfolding(crate::specs::TimeAcc0Acc1::acc0_acc1_shared))]
pub fn acc0_acc1_shared(start: Start, target: Target, k: Constants, m: Limits) -> Shared
    ensures { result ≡ acc0_acc1_shared start target k m }
{
    let radicand = acc0_acc1_radicand(start, target, k, m);
    let h1 = acc0_acc1_h1(sqrt(radicand));
    let h2 = acc0_acc1_h2(start, k, m);
    let h3 = acc0_acc1_h3(target, k, m);
    Shared::numbers(radicand, h1, h2, h3)
}

// None for a radicand below 0, or a NaN.
#[tactic(auto, unfolding(crate::specs::TimeAcc0Acc1::acc0_acc1_slots))]
pub fn acc0_acc1_count(start: Start, target: Target, m: Limits, s: Shared) -> usize
    ensures { result ≡ length (acc0_acc1_slots start target m s) }
{
    if s.h0 >= 0.0 { 2 } else { 0 }
}

// Where the guard of the solution admits it.
#[tactic(auto, unfolding(crate::specs::TimeAcc0Acc1::acc0_acc1_slots))]
pub fn acc0_acc1_holds(start: Start, target: Target, m: Limits, s: Shared, i: usize) -> bool
    ensures { HoldsAt (acc0_acc1_slots start target m s) i result }
{
    match i {
        0 => admits_acc0_acc1_solution_2(m, s.h1, s.h2, s.h3),
        _ => admits_acc0_acc1_solution_1(m, s.h1, s.h2, s.h3),
    }
}

#[tactic(auto, unfolding(crate::specs::TimeAcc0Acc1::acc0_acc1_slots))]
pub fn acc0_acc1_times(start: Start, target: Target, m: Limits, s: Shared, i: usize) -> [f64; 7]
    ensures { TimesAt (acc0_acc1_slots start target m s) i result }
{
    match i {
        0 => times_acc0_acc1_solution_2(start, target, m, s.h1, s.h2, s.h3),
        _ => times_acc0_acc1_solution_1(start, target, m, s.h1, s.h2, s.h3),
    }
}
