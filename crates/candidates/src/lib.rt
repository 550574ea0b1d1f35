// A try that the check judges, and the list of accepted profiles.
#![tactic(auto)]

ghost use Rattle.std.specs.Prelude.{◌≡◌, false};
ghost use Rattle.profile.specs.declared.ControlSigns.TheVariants.{UDDU};
ghost use Rattle.candidates.specs.Try.{passes, profile_of};
ghost use Rattle.candidates.specs.List.{fresh_list};

use profile::{ControlSigns, Limits, Profile, ReachedLimits, Start, Target};
use profile_check::Terms;

// Seven times that a family of step 1 puts to the check, from a start to a target. Of the check's terms it holds what
// families choose: each try has UDDU and stores no limit, which with all the terms in it would have to be proved of it.
#[derive(Clone, Copy)]
pub struct Try {
    pub start: Start,
    pub target: Target,
    pub t: [f64; 7],
    pub reached: ReachedLimits,
    pub jf: f64,
    pub limits: Limits,
}

// Six profiles, of which the first `current_index` count. The one after them is where the next try is made. An array
// and a count, as document 01 says, and no ArrayVec: the definitions tell what lies in all six, also behind those that
// count.
#[derive(Clone, Copy)]
pub struct Candidates {
    pub valid_profiles: [Profile; 6],
    pub current_index: usize,
}

// Each check of step 1 has UDDU and stores no limit.
fn terms_of(x: Try) -> Terms
    ensures { result ≡
        record { control_signs = UDDU; reached = x.reached; set_limits = false; jf = x.jf; limits = x.limits } }
{
    Terms {
        control_signs: ControlSigns::UDDU,
        reached: x.reached,
        set_limits: false,
        jf: x.jf,
        limits: x.limits,
    }
}

// Whether the check accepts a try.
#[tactic(auto, unfolding(crate::specs::Try::passes))]
pub fn passes(x: Try) -> bool
    ensures { result ≡ passes x }
{
    profile_check::accepts(x.start, x.target, x.t, terms_of(x))
}

// The profile that the check makes of a try, with these durations. No `From`, since the durations are no part of a try.
#[tactic(auto, unfolding(crate::specs::Try::profile_of, profile::specs::Boundary::with_boundary))]
pub fn profile_of(brake: f64, accel: f64, x: Try) -> Profile
    ensures { result ≡ profile_of brake accel x }
{
    let empty = Profile {
        brake,
        accel,
        ..Profile::empty()
    };
    profile_check::filled(empty.with_boundary(x.start, x.target), x.t, terms_of(x))
}

impl Candidates {
    // A fresh planner's list.
    #[tactic(auto, unfolding(crate::specs::List::fresh_list))]
    pub fn new(input: Profile) -> Candidates
        ensures { result ≡ fresh_list input }
    {
        let empty = Profile::empty();
        let first = empty.with_boundary_from_profile(input);
        let mut valid_profiles = [empty; 6];
        valid_profiles[0] = first;
        Candidates {
            valid_profiles,
            current_index: 0,
        }
    }
}
