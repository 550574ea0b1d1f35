// The cosine and the sine of a third of an angle together, by the cosine t of the angle.
#![tactic(auto)]

ghost use Rattle.std.specs.Prelude.{◌≡◌};
ghost use Rattle.elementary.specs.Functions.{third_angle_cosine_of, third_angle_sine_of};

pub use angle::Pair;
use angle::candidate::{cosine_candidate, estimated, sine_candidate};
use angle::{Argument, classify, nearest};
use third_angle_cosine::Cosine;
use third_angle_sine::Sine;

// The doubles nearest to the two, from one estimate.
pub fn third_angle_pair(t: f64) -> Pair
    ensures { (result.cos ≡ third_angle_cosine_of t) × (result.sin ≡ third_angle_sine_of t) }
{
    match classify(t) {
        Argument::Known(p) => p,
        Argument::Inside(i) => {
            let e = estimated(t);
            Pair {
                cos: nearest::<Cosine>(i, cosine_candidate(e)),
                sin: nearest::<Sine>(i, sine_candidate(t, e)),
            }
        }
    }
}
