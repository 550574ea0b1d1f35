// The families of step 1 by name, and what the tries of one share.

ghost use Rattle.std.specs.Prelude.{◌≡◌};
ghost use Rattle.position_third_step1.specs.Slots.{numbers};

use phase_times_quartic::root_range::RootRange;
use roots::Roots;

// What is tried in a stage of a search. `time_all_none_acc0_acc1` is three, one for each polynomial. The Rust has these
// and no more, and the search holds one at a time: an enum, not a trait with a type for each.
#[derive(Clone, Copy)]
pub enum Family {
    AllVel,
    None,
    Acc0,
    Acc1,
    Acc0Acc1,
    NoneTwoStep,
    Acc0TwoStep,
    VelTwoStep,
    Acc1VelTwoStep,
    SingleStep,
}

// What the tries of a family share, and is computed once: the roots of its polynomial, the range that they are held to,
// and numbers, each 0 where the family has none. An enum with a case for each family would be matched again in each
// function that reads it, with an answer for the cases of other families.
#[derive(Clone, Copy)]
pub struct Shared {
    pub roots: Roots,
    pub range: RootRange,
    pub h0: f64,
    pub h1: f64,
    pub h2: f64,
    pub h3: f64,
}

impl Shared {
    // Without roots.
    #[tactic(auto, unfolding(crate::specs::Slots::numbers))]
    pub fn numbers(h0: f64, h1: f64, h2: f64, h3: f64) -> Shared
        ensures { result ≡ numbers h0 h1 h2 h3 }
    {
        let roots = Roots::new();
        Shared {
            roots,
            range: RootRange {
                t_min: 0.0,
                t_max: 0.0,
            },
            h0,
            h1,
            h2,
            h3,
        }
    }
}
