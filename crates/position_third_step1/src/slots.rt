// The slots of any family: how many it has, which hold a try, and the times of one that does.

#![tactic(auto, using(crate::proofs::SlotLaws::of_slots), unfolding(crate::specs::Families::slots_of, crate::specs::Slots::always))]

ghost use Rattle.std.specs.Prelude.{◌≡◌, length};
ghost use Rattle.position_third_step1.specs.Slots.{HoldsAt, TimesAt};
ghost use Rattle.position_third_step1.specs.Families.{shared_of, slots_of, reached_by, jerk_by, try_by};

use crate::acc0_acc1::{acc0_acc1_count, acc0_acc1_holds, acc0_acc1_shared, acc0_acc1_times};
use crate::all_vel::{all_vel_shared, all_vel_times};
use crate::families::{Family, Shared};
use crate::none_acc0_acc1::{
    acc0_shared, acc0_times, acc1_shared, acc1_times, none_shared, none_times, root_count,
    root_holds,
};
use crate::single_step::{
    single_step_count, single_step_holds, single_step_shared, single_step_times,
};
use crate::two_step::{
    acc0_two_step_times, none_two_step_shared, none_two_step_times, vel_two_step_shared,
    vel_two_step_times,
};
use candidates::Try;
use phase_times::constants::Constants;
use phase_times_two_step::time_acc1_vel_two_step::times_acc1_vel_two_step;
use profile::{Limits, ReachedLimits, Start, Target};

// What the tries of a family share.
#[tactic(auto, unfolding(crate::specs::Families::shared_of))]
pub fn shared(family: Family, start: Start, target: Target, k: Constants, m: Limits) -> Shared
    ensures { result ≡ shared_of start target k m family }
{
    match family {
        Family::AllVel => all_vel_shared(start, target, k, m),
        Family::None => none_shared(start, target, k, m),
        Family::Acc0 => acc0_shared(start, target, k, m),
        Family::Acc1 => acc1_shared(start, target, k, m),
        Family::Acc0Acc1 => acc0_acc1_shared(start, target, k, m),
        Family::NoneTwoStep => none_two_step_shared(start, target, k, m),
        Family::VelTwoStep => vel_two_step_shared(target, k, m),
        Family::Acc0TwoStep | Family::Acc1VelTwoStep => Shared::numbers(0.0, 0.0, 0.0, 0.0),
        Family::SingleStep => single_step_shared(start, k),
    }
}

// How many slots a family has: at most four.
pub fn slot_count(
    family: Family,
    start: Start,
    target: Target,
    k: Constants,
    m: Limits,
    s: Shared,
) -> usize
    ensures { result ≡ length (slots_of start target k m family s) }
{
    match family {
        Family::None | Family::Acc0 | Family::Acc1 => root_count(s),
        Family::Acc0Acc1 => acc0_acc1_count(start, target, m, s),
        Family::AllVel | Family::Acc0TwoStep => 4,
        Family::NoneTwoStep | Family::VelTwoStep => 2,
        Family::Acc1VelTwoStep => 1,
        Family::SingleStep => single_step_count(start, target, k, s),
    }
}

// Whether the slot i holds a try.
pub fn slot_holds(
    family: Family,
    start: Start,
    target: Target,
    k: Constants,
    m: Limits,
    s: Shared,
    i: usize,
) -> bool
    ensures { HoldsAt (slots_of start target k m family s) i result }
{
    match family {
        Family::None | Family::Acc0 | Family::Acc1 => root_holds(s, i),
        Family::Acc0Acc1 => acc0_acc1_holds(start, target, m, s, i),
        Family::SingleStep => single_step_holds(start, target, k, s, i),
        Family::AllVel
        | Family::NoneTwoStep
        | Family::Acc0TwoStep
        | Family::VelTwoStep
        | Family::Acc1VelTwoStep => true,
    }
}

// The times in the slot i.
pub fn slot_times(
    family: Family,
    start: Start,
    target: Target,
    k: Constants,
    m: Limits,
    s: Shared,
    i: usize,
) -> [f64; 7]
    ensures { TimesAt (slots_of start target k m family s) i result }
{
    match family {
        Family::AllVel => all_vel_times(start, target, k, m, s, i),
        Family::None => none_times(start, target, k, m, s, i),
        Family::Acc0 => acc0_times(start, target, k, m, s, i),
        Family::Acc1 => acc1_times(start, target, k, m, s, i),
        Family::Acc0Acc1 => acc0_acc1_times(start, target, m, s, i),
        Family::NoneTwoStep => none_two_step_times(start, target, m, s, i),
        Family::Acc0TwoStep => acc0_two_step_times(start, target, k, m, i),
        Family::VelTwoStep => vel_two_step_times(start, target, k, m, s, i),
        Family::Acc1VelTwoStep => times_acc1_vel_two_step(start, target, k, m),
        Family::SingleStep => single_step_times(start, target, k, s, i),
    }
}

// The limit that the tries of a family are named after.
#[tactic(auto, unfolding(crate::specs::Families::reached_by))]
fn reached_by(family: Family) -> ReachedLimits
    ensures { result ≡ reached_by family }
{
    match family {
        Family::AllVel | Family::VelTwoStep => ReachedLimits::Vel,
        Family::None | Family::NoneTwoStep | Family::SingleStep => ReachedLimits::None,
        Family::Acc0 | Family::Acc0TwoStep => ReachedLimits::Acc0,
        Family::Acc1 => ReachedLimits::Acc1,
        Family::Acc0Acc1 => ReachedLimits::Acc0Acc1,
        Family::Acc1VelTwoStep => ReachedLimits::Acc1Vel,
    }
}

// Their jerk: that of the limits, and 0 on the single-step path.
#[tactic(auto, unfolding(crate::specs::Families::jerk_by))]
fn jerk_by(family: Family, m: Limits) -> f64
    ensures { result ≡ jerk_by family m }
{
    match family {
        Family::SingleStep => 0.0,
        _ => m.j_max,
    }
}

// A try of a family.
pub fn try_by(family: Family, start: Start, target: Target, m: Limits, t: [f64; 7]) -> Try
    ensures { result ≡ try_by start target m family t }
{
    Try {
        start,
        target,
        t,
        reached: reached_by(family),
        jf: jerk_by(family, m),
        limits: m,
    }
}
