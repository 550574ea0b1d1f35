// The planner: a move in, its plan or a refusal out. What is promised of it is in specs/Promise.antt
// and specs/Arrival.antt.
#![tactic(auto)]

ghost use Rattle.std.specs.Prelude.{◌≡◌};
ghost use Rattle.planner.specs.Answers.{finite_start, finite_target, finite_limits, finite_move, wrong_sign};
ghost use Rattle.planner.specs.Answers.{wrong_duration, input_of, answer_of};
ghost use Rattle.planner.specs.Promise.{Promise, FiniteDuration};
ghost use Rattle.planner.specs.Arrival.{Joinable};

use block::Block;
use doubles::is_finite;
use get_profile::get_profile;
use profile::{Limits, Profile, Start, Target};
use refusals::Refusal;

mod layout; // layout.rt: a move's numbers in their order

pub use layout::MOVE_LENGTH;

// Where a move starts and ends, its limits, and two durations that are only added to the plan's.
#[derive(Clone, Copy)]
pub struct Move {
    pub start: Start,
    pub target: Target,
    pub limits: Limits,
    pub brake: f64,
    pub accel: f64,
}

// The conditions of document 01's table, each as its definition: free functions, as the records are `profile`'s, and
// joined by `&` like the definitions, without an early end.
#[tactic(auto, unfolding(crate::specs::Answers::finite_start))]
fn finite_start(s: Start) -> bool
    ensures { result ≡ finite_start s }
{
    is_finite(s.p0) & is_finite(s.v0) & is_finite(s.a0)
}

#[tactic(auto, unfolding(crate::specs::Answers::finite_target))]
fn finite_target(g: Target) -> bool
    ensures { result ≡ finite_target g }
{
    is_finite(g.pf) & is_finite(g.vf) & is_finite(g.af)
}

#[tactic(auto, unfolding(crate::specs::Answers::finite_limits))]
fn finite_limits(m: Limits) -> bool
    ensures { result ≡ finite_limits m }
{
    is_finite(m.v_max)
        & is_finite(m.v_min)
        & is_finite(m.a_max)
        & is_finite(m.a_min)
        & is_finite(m.j_max)
}

#[tactic(auto, unfolding(crate::specs::Answers::finite_move))]
fn finite_move(x: Move) -> bool
    ensures { result ≡ finite_move x }
{
    finite_start(x.start)
        & finite_target(x.target)
        & finite_limits(x.limits)
        & is_finite(x.brake)
        & is_finite(x.accel)
}

#[tactic(auto, unfolding(crate::specs::Answers::wrong_sign))]
fn wrong_sign(m: Limits) -> bool
    ensures { result ≡ wrong_sign m }
{
    (m.v_max < 0.0) | (m.a_max < 0.0) | (m.j_max < 0.0) | (m.v_min > 0.0) | (m.a_min > 0.0)
}

#[tactic(auto, unfolding(crate::specs::Answers::wrong_duration))]
fn wrong_duration(x: Move) -> bool
    ensures { result ≡ wrong_duration x }
{
    (x.brake < 0.0) | (x.brake > Profile::T_MAX) | (x.accel < 0.0) | (x.accel > Profile::T_MAX)
}

// The profile that get_profile is given.
#[tactic(auto, unfolding(profile::specs::Boundary::with_boundary, profile::specs::Boundary::empty_profile))]
fn input_of(x: Move) -> Profile
    ensures { result ≡ input_of x }
{
    let empty = Profile {
        brake: x.brake,
        accel: x.accel,
        ..Profile::empty()
    };
    empty.with_boundary(x.start, x.target)
}

#[tactic(auto, unfolding(crate::specs::Answers::answer_of))]
fn answer(x: Move) -> Result<Block, Refusal>
    ensures { result ≡ answer_of x }
{
    if !finite_move(x) {
        return Err(Refusal::NotFinite);
    }
    if wrong_sign(x.limits) {
        return Err(Refusal::WrongSign);
    }
    if wrong_duration(x) {
        return Err(Refusal::WrongDuration);
    }
    get_profile(input_of(x), x.limits)
}

// The plan of a move, or why there is none.
pub fn plan(x: Move) -> Result<Block, Refusal>
    ensures promised { (result ≡ answer_of x) × Promise x result × FiniteDuration result }
    ensures joinable { Joinable result }
{
    answer(x)
}
