// Selection among the accepted profiles of a move: the shortest one, and the stretches of time that no profile has.
// What block.rs declares, by value.
#![tactic(auto)]

ghost use Rattle.std.specs.Prelude.{◌≡◌, ◌≤◌};
ghost use Rattle.block.specs.Blocks.{total, duration, no_interval, interval_from, interval_between, block_of};
ghost use Rattle.block.specs.Blocks.{empty_block, count_of, left_end, right_end, inside, plan_in, Says};

use profile::Profile;
use refusals::Refusal;

mod select; // select.rt: calculate_block
mod removal; // removal.rt: which of four profiles goes

// A blocked stretch: nothing, between two times, or from a time on: the three cases of document 01.
#[derive(Clone, Copy)]
pub enum Stretch {
    Nothing,
    Between(f64, f64),
    From(f64),
}

// A stretch and the profile beside it: the far one of a stretch between two times, else the empty profile. Document 01
// has the profile beside the stretch, not in it, because it holds arrays.
#[derive(Clone, Copy)]
pub struct Interval {
    pub stretch: Stretch,
    pub profile: Profile,
}

// The duration of the shortest accepted profile, that profile, and two stretches, which aren't sorted and can overlap.
#[derive(Clone, Copy)]
pub struct Block {
    pub t_min: f64,
    pub p_min: Profile,
    pub a: Interval,
    pub b: Interval,
}

// The sum of a profile's seven times. Of the two no method is made: Profile is another crate's.
#[tactic(auto, unfolding(crate::specs::Blocks::total))]
pub fn total(p: Profile) -> f64
    ensures { result ≡ total p }
{
    p.t_sum[6]
}

// The same with brake and accel.
#[tactic(auto, unfolding(crate::specs::Blocks::total, crate::specs::Blocks::duration))]
pub fn duration(p: Profile) -> f64
    ensures { result ≡ duration p }
{
    p.t_sum[6] + p.brake + p.accel
}

impl Interval {
    #[tactic(auto, unfolding(crate::specs::Blocks::no_interval))]
    pub fn none() -> Interval
        ensures { result ≡ no_interval }
    {
        let profile = Profile::empty();
        Interval {
            stretch: Stretch::Nothing,
            profile,
        }
    }

    // From a time on, with the empty profile. Document 01's wording, and no conversion, so no From.
    #[tactic(auto, unfolding(crate::specs::Blocks::interval_from))]
    pub fn from(t: f64) -> Interval
        ensures { result ≡ interval_from t }
    {
        let profile = Profile::empty();
        Interval {
            stretch: Stretch::From(t),
            profile,
        }
    }

    #[tactic(auto, unfolding(crate::specs::Blocks::interval_between))]
    pub fn from_profiles(profile_left: Profile, profile_right: Profile) -> Interval
        ensures { result ≡ interval_between profile_left profile_right }
    {
        let left = duration(profile_left);
        let right = duration(profile_right);
        if left < right {
            Interval {
                stretch: Stretch::Between(left, right),
                profile: profile_right,
            }
        } else {
            Interval {
                stretch: Stretch::Between(right, left),
                profile: profile_left,
            }
        }
    }
}

impl Stretch {
    // Whether t is inside, the ends excluded.
    fn contains(self, t: f64) -> bool
        ensures { result ≡ inside self t }
    {
        match self {
            Stretch::Nothing => false,
            Stretch::Between(left, right) => (t > left) & (t < right),
            Stretch::From(left) => t > left,
        }
    }

    // How many stretches it is.
    pub fn count(self) -> u8
        ensures { (result ≡ count_of self) × (result ≤ 1) }
    {
        match self {
            Stretch::Nothing => 0,
            Stretch::Between(_, _) | Stretch::From(_) => 1,
        }
    }

    // Its ends: 0 for nothing, and infinity as the right end of a stretch from a time on. No Option: a plan's buffer,
    // the axes of `arrival` and `plan_full`'s lines have two numbers for each stretch.
    pub fn left_end(self) -> f64
        ensures { result ≡ left_end self }
    {
        match self {
            Stretch::Nothing => 0.0,
            Stretch::Between(left, _) | Stretch::From(left) => left,
        }
    }

    pub fn right_end(self) -> f64
        ensures { result ≡ right_end self }
    {
        match self {
            Stretch::Nothing => 0.0,
            Stretch::Between(_, right) => right,
            Stretch::From(_) => f64::INFINITY,
        }
    }
}

impl Block {
    // The plan with this profile as the shortest.
    #[tactic(auto, unfolding(crate::specs::Blocks::block_of))]
    pub fn new(p_min: Profile, a: Interval, b: Interval) -> Block
        ensures { result ≡ block_of p_min a b }
    {
        Block {
            t_min: duration(p_min),
            p_min,
            a,
            b,
        }
    }

    // The plan that a refusal leaves.
    #[tactic(auto, unfolding(crate::specs::Blocks::empty_block))]
    pub fn empty() -> Block
        ensures { result ≡ empty_block }
    {
        Block {
            t_min: 0.0,
            p_min: Profile::empty(),
            a: Interval::none(),
            b: Interval::none(),
        }
    }

    // The plan that an answer leaves: of a refusal the empty one.
    #[tactic(auto, using(crate::proofs::MemberLaws::plan_or_empty))]
    pub fn of(answer: Result<Block, Refusal>) -> Block
        ensures { result ≡ plan_in answer }
    {
        answer.unwrap_or(Block::empty())
    }

    // Whether a time is blocked. A time that isn't finite is refused.
    pub fn is_blocked(self, t: f64) -> Result<bool, Refusal>
        ensures { Says self t result }
    {
        if !doubles::is_finite(t) {
            return Err(Refusal::TimeNotFinite);
        }
        let a = self.a.stretch;
        let b = self.b.stretch;
        Ok((t < self.t_min) | a.contains(t) | b.contains(t))
    }
}
