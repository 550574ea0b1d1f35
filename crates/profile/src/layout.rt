// The layout of a profile: its doubles in their order, behind its names. The lengths are those of the definitions.

ghost use Rattle.std.specs.Prelude.{◌≡◌};
ghost use Rattle.profile.specs.Layout.{profile_names_length, profile_doubles, profile_doubles_length};

use crate::Profile;

pub const NAMES: usize = 3;

pub const DOUBLES: usize = 50;

impl Profile {
    // Element by element, which the check proves alone. By `copy_from_slice` to seven parts of a [f64; 50] it found
    // neither the bounds of the last five parts nor `returns`.
    #[tactic(auto, unfolding(crate::specs::Layout::profile_doubles, crate::specs::Layout::elements))]
    pub fn doubles(self) -> [f64; DOUBLES]
        ensures { result ≡ profile_doubles self }
    {
        let Profile {
            t,
            t_sum,
            j,
            a,
            v,
            p,
            ..
        } = self;
        [
            t[0], t[1], t[2], t[3], t[4], t[5], t[6], t_sum[0], t_sum[1], t_sum[2], t_sum[3],
            t_sum[4], t_sum[5], t_sum[6], j[0], j[1], j[2], j[3], j[4], j[5], j[6], a[0], a[1],
            a[2], a[3], a[4], a[5], a[6], a[7], v[0], v[1], v[2], v[3], v[4], v[5], v[6], v[7],
            p[0], p[1], p[2], p[3], p[4], p[5], p[6], p[7], self.pf, self.vf, self.af, self.brake,
            self.accel,
        ]
    }
}

pub fn layout_constants()
    ensures { (NAMES ≡ profile_names_length) × (DOUBLES ≡ profile_doubles_length) }
{}
