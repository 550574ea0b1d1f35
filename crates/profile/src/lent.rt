// The two functions that change a lent profile in place. Every other caller uses those of boundary.rt, by value.

ghost use Rattle.std.specs.Prelude.{◌≡◌};
ghost use Rattle.profile.specs.Boundary.{boundary_set, boundary_from};

use crate::{Profile, Start, Target};

impl Profile {
    pub fn set_boundary(&mut self, start: Start, target: Target)
        ensures { self.new ≡ boundary_set self.old start target }
    {
        *self = (*self).with_boundary(start, target);
    }

    pub fn set_boundary_from_profile(&mut self, profile: &Profile)
        ensures { self.new ≡ boundary_from self.old profile.now }
    {
        let other = *profile;
        *self = (*self).with_boundary_from_profile(other);
    }
}
