// A square root with the sign of the jerk, as two of the two-step families have it.

ghost use Rattle.std.specs.Prelude.{◌≡◌};
ghost use Rattle.phase_times_two_step.specs.ScaledRoot.{scaled_root};

use profile::Limits;

// Not a choice of sign: the product can overflow, and a j_max of 0 gives a NaN.
#[tactic(auto, unfolding(crate::specs::ScaledRoot::scaled_root))]
pub fn scaled_root(m: Limits, root: f64) -> f64
    ensures { result ≡ scaled_root m root }
{
    root * doubles::abs(m.j_max) / m.j_max
}
