// The tries that reach no limit, a_max alone or a_min alone: one for each root of a quartic that isn't skipped.

ghost use Rattle.std.specs.Prelude.{◌≡◌, ◌<◌, length, true};
ghost use Rattle.doubles.specs.Operators.{at};
ghost use Rattle.roots.specs.List.{roots_of};
ghost use Rattle.position_third_step1.specs.Slots.{TimesAt};
ghost use Rattle.position_third_step1.specs.TimeAllNoneAcc0Acc1.{roots_if, none_shared, acc0_shared, acc1_shared};
ghost use Rattle.position_third_step1.specs.TimeAllNoneAcc0Acc1.{none_slots, acc0_slots, acc1_slots, root_holds};

use crate::families::Shared;
use phase_times::constants::Constants;
use phase_times_quartic::correction_acc1::corrected_acc1;
use phase_times_quartic::quartic::Quartic;
use phase_times_quartic::root_range::RootRange;
use phase_times_quartic::time_acc0::{
    corrected_acc0, h0_acc0, h2_acc0, h3_acc0, polynom_acc0, range_acc0, times_acc0,
};
use phase_times_quartic::time_acc1::{
    h0_acc1, h2_acc1, h3_acc1, polynom_acc1, range_acc1, times_acc1,
};
use phase_times_quartic::time_none::{
    corrected_none, h2_none, polynom_none, range_none, times_none,
};
use profile::{Limits, Start, Target};
use roots::{Roots, solve_quart_monic_coeffs};

// The roots in ascending order.
#[tactic(auto, unfolding(crate::specs::TimeAllNoneAcc0Acc1::roots_if))]
fn ascending_roots(q: Quartic) -> Roots
    ensures { result ≡ roots_if true q }
{
    solve_quart_monic_coeffs(q.c0, q.c1, q.c2, q.c3).ascending()
}

// Those of a polynomial of which it is asked whether it has a solution. With this `if` in both callers a plan took 3 %
// longer (plan_time 201).
#[tactic(auto, unfolding(crate::specs::TimeAllNoneAcc0Acc1::roots_if))]
fn roots_if(has_solution: bool, q: Quartic) -> Roots
    ensures { result ≡ roots_if has_solution q }
{
    if has_solution {
        ascending_roots(q)
    } else {
        Roots::new()
    }
}

#[tactic(auto, unfolding(crate::specs::Slots::numbers, crate::specs::TimeAllNoneAcc0Acc1::none_shared))]
pub fn none_shared(start: Start, target: Target, k: Constants, m: Limits) -> Shared
    ensures { result ≡ none_shared start target k m }
{
    let h2 = h2_none(start, target, k, m);
    let roots = ascending_roots(polynom_none(start, target, k, m, h2));
    let range = range_none(start, target, m);
    Shared {
        roots,
        range,
        ..Shared::numbers(0.0, 0.0, h2, 0.0)
    }
}

#[tactic(auto, unfolding(crate::specs::Slots::numbers, crate::specs::TimeAllNoneAcc0Acc1::acc0_shared))]
pub fn acc0_shared(start: Start, target: Target, k: Constants, m: Limits) -> Shared
    ensures { result ≡ acc0_shared start target k m }
{
    let h0 = h0_acc0(start, target, k, m);
    let h2 = h2_acc0(target, k, m);
    let polynom = polynom_acc0(k, m, h0, h2);
    let range = range_acc0(target, m);
    let roots = roots_if(polynom.shifted(range.t_min).has_solution(), polynom);
    let h3 = h3_acc0(start, target, k, m);
    Shared {
        roots,
        range,
        ..Shared::numbers(h0, 0.0, h2, h3)
    }
}

#[tactic(auto, unfolding(crate::specs::Slots::numbers, crate::specs::TimeAllNoneAcc0Acc1::acc1_shared))]
pub fn acc1_shared(start: Start, target: Target, k: Constants, m: Limits) -> Shared
    ensures { result ≡ acc1_shared start target k m }
{
    let h0 = h0_acc1(start, target, k, m);
    let h2 = h2_acc1(start, k, m);
    let polynom = polynom_acc1(start, k, m, h0, h2);
    let range = range_acc1(start, m);
    let roots = roots_if(polynom.has_solution(), polynom);
    let h3 = h3_acc1(start, target, k, m);
    Shared {
        roots,
        range,
        ..Shared::numbers(h0, 0.0, h2, h3)
    }
}

// How many roots there are.
pub fn root_count(s: Shared) -> usize
    ensures { result ≡ length (roots_of s.roots) }
{
    s.roots.as_slice().len()
}

// The root i, by constant indices: by `values[i.min(3)]` a plan took 1696 ns for 1682, the least of four runs of
// `plan_time 201` each, taken turn about.
fn root_at(s: Shared, i: usize) -> f64
    ensures { i < length (roots_of s.roots) → result ≡ at (roots_of s.roots) i }
{
    let values = s.roots.values;
    match i {
        0 => values[0],
        1 => values[1],
        2 => values[2],
        _ => values[3],
    }
}

// Whether the root i isn't skipped.
pub fn root_holds(s: Shared, i: usize) -> bool
    ensures { i < length (roots_of s.roots) → result ≡ root_holds s i }
{
    !s.range.skips(root_at(s, i))
}

#[tactic(auto, using(crate::proofs::SlotLaws::of_slots))]
pub fn none_times(
    start: Start,
    target: Target,
    k: Constants,
    m: Limits,
    s: Shared,
    i: usize,
) -> [f64; 7]
    ensures { TimesAt (none_slots start target k m s) i result }
{
    let corrected = corrected_none(start, target, k, m, s.h2, root_at(s, i));
    times_none(start, target, m, s.h2, corrected)
}

#[tactic(auto, using(crate::proofs::SlotLaws::of_slots))]
pub fn acc0_times(
    start: Start,
    target: Target,
    k: Constants,
    m: Limits,
    s: Shared,
    i: usize,
) -> [f64; 7]
    ensures { TimesAt (acc0_slots start target k m s) i result }
{
    let corrected = corrected_acc0(k, m, s.h0, s.h2, root_at(s, i));
    times_acc0(start, target, m, s.h3, corrected)
}

#[tactic(auto, using(crate::proofs::SlotLaws::of_slots))]
pub fn acc1_times(
    start: Start,
    target: Target,
    k: Constants,
    m: Limits,
    s: Shared,
    i: usize,
) -> [f64; 7]
    ensures { TimesAt (acc1_slots start target k m s) i result }
{
    let corrected = corrected_acc1(start, k, m, s.h0, s.h2, root_at(s, i));
    times_acc1(start, target, m, s.h3, corrected)
}
