// `get_profile` of position_third_step1.rs: what the search for a move finds, and what is selected of it.
#![tactic(auto)]

ghost use Rattle.std.specs.Prelude.{◌≡◌};
ghost use Rattle.get_profile.specs.GetProfile.{after_passing, single_step_from, get_profile_answer};

use block::{Block, Interval};
use candidates::Candidates;
use phase_times::constants::Constants;
use phase_times::time_all_single_step::{starts_accelerated, starts_moving};
use profile::{Limits, Profile, Start};
use refusals::Refusal;
use search::{has_zero_limit, kind_of, search, stage_count};

// The stretch after a single-step plan.
#[tactic(auto, unfolding(crate::specs::GetProfile::after_passing))]
fn after_passing(start: Start, q: Profile) -> Interval
    ensures { result ≡ after_passing start q }
{
    if starts_moving(start) | starts_accelerated(start) {
        return Interval::from(block::duration(q));
    }
    Interval::none()
}

// The answer of the single-step path, of the list that its search found.
#[tactic(auto, using(candidates::proofs::SlotLaws::get_d_within), unfolding(crate::specs::GetProfile::single_step_from))]
fn single_step_answer(start: Start, c: Candidates) -> Result<Block, Refusal>
    ensures { result ≡ single_step_from start c }
{
    if c.current_index > 0 {
        let q = c.valid_profiles[0];
        return Ok(Block::new(q, after_passing(start, q), Interval::none()));
    }
    Err(Refusal::NoProfile)
}

// The plan of a move with the start, the target and the durations of `input`, or a refusal: no profile was accepted, or
// four were and no removal rule applies.
pub fn get_profile(input: Profile, m: Limits) -> Result<Block, Refusal>
    ensures { result ≡ get_profile_answer input m }
{
    let start = input.start();
    let target = input.target();
    let k = Constants::new(start, target, m);
    let kind = kind_of(start, target, k, m);
    let stages = 0..stage_count(kind);
    let c = search(Candidates::new(input), start, target, k, m, kind, stages);
    if has_zero_limit(m) {
        return single_step_answer(start, c);
    }
    let valid_profiles = c.valid_profiles;
    Block::calculate_block(valid_profiles, c.current_index)
}
