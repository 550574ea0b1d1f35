// calculate_block: the shortest of the profiles that count, and the stretches between the others. An array holds as
// many profiles as count.

ghost use Rattle.std.specs.Prelude.{◌≡◌, ◌<◌, ◌≤◌, ◌+◌, ◌-◌};
ghost use Rattle.block.specs.Selection.{slot, fastest, of_two, of_three, with_two, of_five, moved_up, of_four};
ghost use Rattle.block.specs.Selection.{selected};
ghost use Rattle.block.specs.Steps.{removed};

use crate::removal::{near, removal};
use crate::{Block, Interval, total};
use profile::Profile;
use refusals::Refusal;

// The index of the least total, found from the front. A comparison with NaN counts as equality: `min_by` would need an
// order for its answer, made of `partial_cmp` and a case for NaN.
#[tactic(auto, unfolding(crate::specs::Selection::fastest))]
fn fastest<const N: usize>(profiles: &[Profile; N]) -> usize
    requires { 0 < N }
    ensures index { result ≡ fastest (slot profiles.now) (N - 1) }
    ensures below { result < N }
{
    let mut index = 0;
    for j in 1..N {
        if total(profiles[j]) < total(profiles[index]) {
            index = j;
        }
    }
    index
}

#[tactic(auto, unfolding(crate::specs::Selection::of_two))]
fn of_two(p: Profile, q: Profile) -> Block
    ensures { result ≡ of_two p q }
{
    let t = total(p);
    let u = total(q);
    if near(8.0 * f64::EPSILON, t, u) {
        return Block::new(p, Interval::none(), Interval::none());
    }
    if t < u {
        return Block::new(p, Interval::from_profiles(p, q), Interval::none());
    }
    Block::new(q, Interval::from_profiles(q, p), Interval::none())
}

// Inlined: a call of it fills its array and its plan with zeros first: 1,446 to 1,457 ns a plan, inlined 1,397 to 1,427
// (bench, plan_time 201).
#[inline(always)]
fn of_three(profiles: [Profile; 3]) -> Block
    ensures { result ≡ of_three (slot profiles) }
{
    let i = fastest(&profiles);
    let a = Interval::from_profiles(profiles[(i + 1) % 3], profiles[(i + 2) % 3]);
    Block::new(profiles[i], a, Interval::none())
}

// Which of four profiles is at i once the one at the index is gone.
#[tactic(auto, unfolding(crate::specs::Selection::moved_up))]
fn moved_up(index: usize, i: usize) -> usize
    requires { i < 3 }
    ensures place { result ≡ moved_up index i }
    ensures below { result ≤ i + 1 }
{
    if i < index { i } else { i + 1 }
}

fn remove_profile(profiles: [Profile; 4], index: usize) -> [Profile; 3]
    ensures { result ≡ removed index (slot profiles) }
{
    std::array::from_fn(|i| profiles[moved_up(index, i)])
}

fn of_four(profiles: [Profile; 4]) -> Result<Block, Refusal>
    ensures { result ≡ of_four (slot profiles) }
{
    match removal(profiles) {
        Some(index) => Ok(of_three(remove_profile(profiles, index))),
        None => Err(Refusal::NoRemoval),
    }
}

// The shortest of five and the others, in the order in which they follow it.
#[tactic(auto, using(crate::proofs::DirectionLaws::same_is), unfolding(crate::specs::Selection::with_two))]
fn with_two(p_min: Profile, q1: Profile, q2: Profile, q3: Profile, q4: Profile) -> Block
    ensures { result ≡ with_two p_min q1 q2 q3 q4 }
{
    if q1.direction == q2.direction {
        return Block::new(
            p_min,
            Interval::from_profiles(q1, q2),
            Interval::from_profiles(q3, q4),
        );
    }
    Block::new(
        p_min,
        Interval::from_profiles(q1, q4),
        Interval::from_profiles(q2, q3),
    )
}

fn of_five(profiles: [Profile; 5]) -> Block
    ensures { result ≡ of_five (slot profiles) }
{
    let p = &profiles;
    let i = fastest(p);
    with_two(
        p[i],
        p[(i + 1) % 5],
        p[(i + 2) % 5],
        p[(i + 3) % 5],
        p[(i + 4) % 5],
    )
}

impl Block {
    // The plan for the first `count` profiles of a list: document 01 has the list with its count.
    pub fn calculate_block(valid_profiles: [Profile; 6], count: usize) -> Result<Block, Refusal>
        ensures { result ≡ selected (slot valid_profiles) count }
    {
        let p = &valid_profiles;
        match count {
            0 => Err(Refusal::NoProfile),
            1 => Ok(Block::new(p[0], Interval::none(), Interval::none())),
            2 => Ok(of_two(p[0], p[1])),
            3 => Ok(of_three([p[0], p[1], p[2]])),
            4 => of_four([p[0], p[1], p[2], p[3]]),
            5 => Ok(of_five([p[0], p[1], p[2], p[3], p[4]])),
            _ => Err(Refusal::TooManyProfiles),
        }
    }
}
