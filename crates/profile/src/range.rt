// Limits for the opposite direction, and as the rows are held to them.

ghost use Rattle.std.specs.Prelude.{◌≡◌};
ghost use Rattle.profile.specs.Limits.{swapped_limits, direction_of, up_else, bounds_of};

use crate::{Bounds, Direction, Limits, Profile};

impl Direction {
    // x for UP, y for DOWN.
    fn up_else(self, x: f64, y: f64) -> f64
        ensures { result ≡ up_else self x y }
    {
        match self {
            Direction::UP => x,
            Direction::DOWN => y,
        }
    }
}

impl Limits {
    #[tactic(auto, unfolding(crate::specs::Limits::swapped_limits))]
    pub fn swapped(self) -> Limits
        ensures { result ≡ swapped_limits self }
    {
        Limits {
            v_max: self.v_min,
            v_min: self.v_max,
            a_max: self.a_min,
            a_min: self.a_max,
            j_max: -self.j_max,
        }
    }

    #[tactic(auto, unfolding(crate::specs::Limits::direction_of))]
    pub fn direction(self) -> Direction
        ensures { result ≡ direction_of self }
    {
        if self.v_max > 0.0 {
            Direction::UP
        } else {
            Direction::DOWN
        }
    }

    #[tactic(auto, unfolding(crate::specs::Limits::bounds_of))]
    pub fn bounds(self) -> Bounds
        ensures { result ≡ bounds_of self }
    {
        let d = self.direction();
        let v_upp_lim = d.up_else(self.v_max, self.v_min) + Profile::V_EPS;
        let v_low_lim = d.up_else(self.v_min, self.v_max) - Profile::V_EPS;
        let a_upp_lim = d.up_else(self.a_max, self.a_min) + Profile::A_EPS;
        let a_low_lim = d.up_else(self.a_min, self.a_max) - Profile::A_EPS;
        Bounds {
            v_upp_lim,
            v_low_lim,
            a_upp_lim,
            a_low_lim,
        }
    }
}
