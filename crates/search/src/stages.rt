// The stages of a move: which families are tried, with which limits, in which order.

ghost use Rattle.std.specs.Prelude.{◌≡◌, true, false};
ghost use Rattle.search.specs.Stages.{kind_of, limits_for, polynom_family, resting_family, two_step_family, stage};
ghost use Rattle.search.specs.Stages.{resting_stage, moving_stage, two_step_stage, stage_count, stage_at};

use crate::choices::{ends_at_rest, has_zero_limit, rests_at_target, towards_target};
use phase_times::constants::Constants;
use position_third_step1::Family;
use profile::{Limits, Start, Target};

// Which stages a move has: single-step 1, a rest that is its own target 3 and the two-step families' 8, any other
// resting target and any other move 10 and those 8.
#[derive(Clone, Copy)]
pub enum Kind {
    SingleStep,
    Itself,
    Resting,
    Moving,
}

// The limits of a stage: as given, or swapped; or those for the direction of pf - p0, or for the other.
#[derive(Clone, Copy)]
pub enum Way {
    Given,
    Swapped,
    Towards,
    Away,
}

// A family in one direction. A guarded stage is entered only where no profile was found; one that stops ends at its
// first success. These are the Rust's two habits, and each goes its own way: hence two flags (entry 75 of
// docs/DECISIONS.md).
#[derive(Clone, Copy)]
pub struct Stage {
    pub family: Family,
    pub way: Way,
    pub guarded: bool,
    pub stops: bool,
}

#[tactic(auto, unfolding(crate::specs::Stages::kind_of, crate::specs::Stages::kind_by))]
pub fn kind_of(start: Start, target: Target, k: Constants, m: Limits) -> Kind
    ensures { result ≡ kind_of start target k m }
{
    if has_zero_limit(m) {
        Kind::SingleStep
    } else if !ends_at_rest(target) {
        Kind::Moving
    } else if rests_at_target(start, k) {
        Kind::Itself
    } else {
        Kind::Resting
    }
}

#[tactic(auto, unfolding(crate::specs::Stages::limits_for))]
pub fn limits_for(way: Way, k: Constants, m: Limits) -> Limits
    ensures { result ≡ limits_for k m way }
{
    match way {
        Way::Given => m,
        Way::Swapped => m.swapped(),
        Way::Towards => towards_target(k, m),
        Way::Away => towards_target(k, m).swapped(),
    }
}

// The three of `time_all_none_acc0_acc1`.
#[tactic(auto, unfolding(crate::specs::Stages::polynom_family))]
fn polynom_family(n: usize) -> Family
    ensures { result ≡ polynom_family n }
{
    match n {
        0 => Family::None,
        1 => Family::Acc0,
        _ => Family::Acc1,
    }
}

// Those of a resting target in one direction.
#[tactic(auto, unfolding(crate::specs::Stages::resting_family))]
fn resting_family(n: usize) -> Family
    ensures { result ≡ resting_family n }
{
    match n {
        0 => Family::AllVel,
        1..=3 => polynom_family(n - 1),
        _ => Family::Acc0Acc1,
    }
}

#[tactic(auto, unfolding(crate::specs::Stages::two_step_family))]
fn two_step_family(n: usize) -> Family
    ensures { result ≡ two_step_family n }
{
    match n {
        0 | 1 => Family::NoneTwoStep,
        2 | 3 => Family::Acc0TwoStep,
        4 | 5 => Family::VelTwoStep,
        _ => Family::Acc1VelTwoStep,
    }
}

// A stage of a search that ends with the first profile found.
fn first_of(family: Family, way: Way) -> Stage
    ensures { result ≡ stage family way true true }
{
    Stage {
        family,
        way,
        guarded: true,
        stops: true,
    }
}

// A stage of a search that tries all.
fn each_of(family: Family, way: Way, stops: bool) -> Stage
    ensures { result ≡ stage family way false stops }
{
    Stage {
        family,
        way,
        guarded: false,
        stops,
    }
}

// A resting target: in the direction of pf - p0, and then in the other.
#[tactic(auto, unfolding(crate::specs::Stages::resting_stage))]
fn resting_stage(n: usize) -> Stage
    ensures { result ≡ resting_stage n }
{
    if n < 5 {
        first_of(resting_family(n), Way::Towards)
    } else {
        first_of(resting_family(n - 5), Way::Away)
    }
}

// Any other target: all families, both directions. Only `time_all_vel` stops at its first success.
#[tactic(auto, unfolding(crate::specs::Stages::moving_stage))]
fn moving_stage(n: usize) -> Stage
    ensures { result ≡ moving_stage n }
{
    match n {
        0..=2 => each_of(polynom_family(n), Way::Given, false),
        3..=5 => each_of(polynom_family(n - 3), Way::Swapped, false),
        6 => each_of(Family::Acc0Acc1, Way::Given, false),
        7 => each_of(Family::Acc0Acc1, Way::Swapped, false),
        8 => each_of(Family::AllVel, Way::Given, true),
        _ => each_of(Family::AllVel, Way::Swapped, true),
    }
}

// With none found: each family as given, and then swapped.
#[tactic(auto, unfolding(crate::specs::Stages::two_step_stage))]
fn two_step_stage(n: usize) -> Stage
    ensures { result ≡ two_step_stage n }
{
    if n % 2 == 0 {
        first_of(two_step_family(n), Way::Given)
    } else {
        first_of(two_step_family(n), Way::Swapped)
    }
}

#[tactic(auto, unfolding(crate::specs::Stages::stage_count))]
pub fn stage_count(kind: Kind) -> usize
    ensures { result ≡ stage_count kind }
{
    match kind {
        Kind::SingleStep => 1,
        Kind::Itself => 11,
        Kind::Resting | Kind::Moving => 18,
    }
}

// The stage n: by number, as specs/Stages.antt counts. The first search of a rest that is its own target has three
// stages, that of another move ten; the two-step families follow.
#[tactic(auto, unfolding(crate::specs::Stages::stage_at))]
pub fn stage_at(kind: Kind, n: usize) -> Stage
    ensures { result ≡ stage_at kind n }
{
    match kind {
        Kind::SingleStep => first_of(Family::SingleStep, Way::Given),
        Kind::Itself if n < 3 => first_of(polynom_family(n), Way::Towards),
        Kind::Itself => two_step_stage(n - 3),
        Kind::Resting if n < 10 => resting_stage(n),
        Kind::Moving if n < 10 => moving_stage(n),
        Kind::Resting | Kind::Moving => two_step_stage(n - 10),
    }
}
