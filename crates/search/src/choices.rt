// The conditions by which `get_profile` chooses families and directions.

ghost use Rattle.std.specs.Prelude.{◌≡◌};
ghost use Rattle.search.specs.Choices.{has_zero_limit, ends_at_rest, points_up, rests_at_target, towards_target};

use phase_times::constants::Constants;
use profile::{Limits, Start, Target};

// Then only time_all_single_step is tried.
#[tactic(auto, unfolding(crate::specs::Choices::has_zero_limit))]
pub fn has_zero_limit(m: Limits) -> bool
    ensures { result ≡ has_zero_limit m }
{
    (m.j_max == 0.0) | (m.a_max == 0.0) | (m.a_min == 0.0)
}

#[tactic(auto, unfolding(crate::specs::Choices::ends_at_rest))]
pub fn ends_at_rest(target: Target) -> bool
    ensures { result ≡ ends_at_rest target }
{
    (doubles::abs(target.vf) < f64::EPSILON) & (doubles::abs(target.af) < f64::EPSILON)
}

// Then the limits are first taken as given; else, also for a NaN, those for the opposite direction.
#[tactic(auto, unfolding(crate::specs::Choices::points_up))]
pub fn points_up(k: Constants) -> bool
    ensures { result ≡ points_up k }
{
    k.pd >= 0.0
}

#[tactic(auto, unfolding(crate::specs::Choices::rests_at_target))]
pub fn rests_at_target(start: Start, k: Constants) -> bool
    ensures { result ≡ rests_at_target start k }
{
    (doubles::abs(start.v0) < f64::EPSILON)
        & (doubles::abs(start.a0) < f64::EPSILON)
        & (doubles::abs(k.pd) < f64::EPSILON)
}

// The limits for the direction of pf - p0.
#[tactic(auto, unfolding(crate::specs::Choices::towards_target))]
pub fn towards_target(k: Constants, m: Limits) -> Limits
    ensures { result ≡ towards_target k m }
{
    if points_up(k) {
        return m;
    }
    m.swapped()
}
