// What the bytes of a record mean. They begin as a move's do, but `Move::from` is the planner's, which is built on what
// is called here.

ghost use Rattle.std.specs.Prelude.{◌≡◌, ◌<◌, ◌||◌, eqb, ltb, get_or};
ghost use Rattle.profile_check.specs.Check.{judged};
ghost use Rattle.families_test.specs.Records.{start_of, target_of, limits_of, boundary_of, directed, list_of};
ghost use Rattle.families_test.specs.Records.{stages_of, turned, after_family, single_step, first_found};

use candidates::Candidates;
use encoding::doubles_at;
use phase_times::constants::Constants;
use profile::{Limits, Profile, Start, Target};
use search::{Kind, search};
use std::ops::Range;

#[tactic(auto, unfolding(crate::specs::Records::start_of, encoding::specs::Encoding::doubles_at))]
fn start_of(bytes: &[u8; 108]) -> Start
    ensures { result ≡ start_of bytes.now }
{
    let [p0, v0, a0]: [f64; 3] = doubles_at(bytes, 0);
    Start { p0, v0, a0 }
}

#[tactic(auto, unfolding(crate::specs::Records::target_of, encoding::specs::Encoding::doubles_at))]
fn target_of(bytes: &[u8; 108]) -> Target
    ensures { result ≡ target_of bytes.now }
{
    let [pf, vf, af]: [f64; 3] = doubles_at(bytes, 24);
    Target { pf, vf, af }
}

#[tactic(auto, unfolding(crate::specs::Records::limits_of, encoding::specs::Encoding::doubles_at))]
fn limits_of(bytes: &[u8; 108]) -> Limits
    ensures { result ≡ limits_of bytes.now }
{
    let [v_max, v_min, a_max, a_min, j_max]: [f64; 5] = doubles_at(bytes, 48);
    Limits {
        v_max,
        v_min,
        a_max,
        a_min,
        j_max,
    }
}

// An empty profile with the record's boundary.
#[tactic(auto, unfolding(crate::specs::Records::boundary_of, encoding::specs::Encoding::doubles_at, profile::specs::Boundary::with_boundary))]
fn boundary_of(bytes: &[u8; 108]) -> Profile
    ensures { result ≡ boundary_of bytes.now }
{
    let mut q = Profile::empty().with_boundary(start_of(bytes), target_of(bytes));
    let [brake, accel]: [f64; 2] = doubles_at(bytes, 88);
    q.brake = brake;
    q.accel = accel;
    q
}

// The limits for the record's direction.
#[tactic(auto, unfolding(crate::specs::Records::directed))]
fn directed(bytes: &[u8; 108]) -> Limits
    ensures { result ≡ directed bytes.now }
{
    let limits = limits_of(bytes);
    if bytes[105] == 1 {
        return limits.swapped();
    }
    limits
}

// Whether a record has a line: the single-step path, or a list that counts five profiles at most.
pub fn has_line(bytes: &[u8; 108]) -> bool
    ensures { result ≡ (eqb (get_or bytes.now 104 0) 7 || ltb (get_or bytes.now 107 0) 6) }
{
    bytes[104] == 7 || bytes[107] < 6
}

// A list of which n empty profiles count, and the record's boundary behind them.
#[tactic(auto, unfolding(crate::specs::Records::list_of))]
pub fn list_of(bytes: &[u8; 108], n: usize) -> Candidates
    requires { n < 6 }
    ensures { result ≡ list_of bytes.now n }
{
    let mut valid_profiles = [Profile::empty(); 6];
    valid_profiles[n] = boundary_of(bytes);
    Candidates {
        valid_profiles,
        current_index: n,
    }
}

// Stages of a search: some of a kind.
#[derive(Drop)]
pub struct Stages {
    pub kind: Kind,
    pub numbers: Range<usize>,
}

// The stages that are the family of this number. With `return_after_found`, which is the Rust's,
// two families are stages of a resting target.
#[tactic(auto, unfolding(crate::specs::Records::stages_of))]
fn stages_of(family: u8, return_after_found: bool) -> Stages
    ensures { result ≡ stages_of family return_after_found }
{
    let (kind, numbers) = match (family, return_after_found) {
        (0, _) => (Kind::Moving, 8..9),
        (1, true) => (Kind::Resting, 4..5),
        (1, false) => (Kind::Moving, 6..7),
        (2, true) => (Kind::Resting, 1..4),
        (2, false) => (Kind::Moving, 0..3),
        (3, _) => (Kind::Moving, 16..17),
        (4, _) => (Kind::Moving, 12..13),
        (5, _) => (Kind::Moving, 14..15),
        _ => (Kind::Moving, 10..11),
    };
    Stages { kind, numbers }
}

// The limits of which stages of the kind make m: limits turned towards the target twice are as they were.
#[tactic(auto, using(profile::proofs::SwapLaws::swapped_twice), unfolding(search::specs::Choices::towards_target, search::specs::Choices::points_up))]
fn before_turning(kind: Kind, k: Constants, m: Limits) -> Limits
    ensures { turned kind k result ≡ m }
{
    match kind {
        Kind::Resting => { if k.pd >= 0.0 { m } else { m.swapped() } }
        Kind::SingleStep | Kind::Itself | Kind::Moving => m,
    }
}

// The list after the record's family: those stages of a search that are the family in the record's direction.
pub fn after_family(bytes: &[u8; 108], c: Candidates) -> Candidates
    ensures { result ≡ after_family bytes.now c }
{
    let start = start_of(bytes);
    let target = target_of(bytes);
    let k = Constants::new(start, target, limits_of(bytes));
    let Stages { kind, numbers } = stages_of(bytes[104], bytes[106] == 1);
    let m = before_turning(kind, k, directed(bytes));
    search(c, start, target, k, m, kind, numbers)
}

// The first profile of a list, as a no where it doesn't count.
#[tactic(auto, using(crate::proofs::ListLaws::first_slot))]
fn first_found(c: Candidates) -> Result<Profile, Profile>
    ensures { result ≡ judged (first_found c) }
{
    let profile = c.valid_profiles[0];
    if c.current_index > 0 {
        Ok(profile)
    } else {
        Err(profile)
    }
}

// The single-step path works on one profile. A no holds it as it is then.
#[tactic(auto, using(crate::proofs::StageLaws::single_step_judged), unfolding(crate::specs::Records::single_step))]
pub fn single_step(bytes: &[u8; 108]) -> Result<Profile, Profile>
    ensures { result ≡ judged (single_step bytes.now) }
{
    let start = start_of(bytes);
    let target = target_of(bytes);
    let k = Constants::new(start, target, limits_of(bytes));
    let c = list_of(bytes, 0);
    let m = directed(bytes);
    first_found(search(c, start, target, k, m, Kind::SingleStep, 0..1))
}
