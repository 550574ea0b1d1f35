// The tries that reach v_max: four, and each is always made.

ghost use Rattle.std.specs.Prelude.{◌≡◌};
ghost use Rattle.position_third_step1.specs.Slots.{TimesAt};
ghost use Rattle.position_third_step1.specs.TimeAllVel.{t_acc1, all_vel_shared, all_vel_slots};

use crate::families::Shared;
use phase_times::constants::Constants;
use phase_times::time_all_vel::{
    t_acc0_radicand, t_acc1_radicand, times_acc0_acc1_vel, times_acc0_vel, times_acc1_vel,
    times_vel,
};
use profile::{Limits, Start, Target};
use sqrt::sqrt;

pub fn t_acc1(target: Target, k: Constants, m: Limits) -> f64
    ensures { result ≡ t_acc1 target k m }
{
    sqrt(t_acc1_radicand(target, k, m))
}

#[tactic(auto, unfolding(crate::specs::TimeAllVel::all_vel_shared))]
pub fn all_vel_shared(start: Start, target: Target, k: Constants, m: Limits) -> Shared
    ensures { result ≡ all_vel_shared start target k m }
{
    let t_acc0 = sqrt(t_acc0_radicand(start, k, m));
    let t_acc1 = t_acc1(target, k, m);
    Shared::numbers(t_acc0, t_acc1, 0.0, 0.0)
}

// The second and the fourth keep phases 4 to 6 of the try before them.
#[tactic(auto, unfolding(crate::specs::Slots::always))]
pub fn all_vel_times(
    start: Start,
    target: Target,
    k: Constants,
    m: Limits,
    s: Shared,
    i: usize,
) -> [f64; 7]
    ensures { TimesAt (all_vel_slots start target k m s) i result }
{
    match i {
        0 => times_acc0_acc1_vel(start, target, k, m),
        1 => {
            let first = times_acc0_acc1_vel(start, target, k, m);
            times_acc1_vel(start, target, k, m, s.h0, first)
        }
        2 => times_acc0_vel(start, target, k, m, s.h1),
        _ => {
            let third = times_acc0_vel(start, target, k, m, s.h1);
            times_vel(start, target, k, m, s.h0, s.h1, third)
        }
    }
}
