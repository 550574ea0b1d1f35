// A profile's boundary: its start, in row 0, its target, and the durations of brake and accel. And the empty profile.

ghost use Rattle.std.specs.Prelude.{◌≡◌};
ghost use Rattle.profile.specs.Boundary.{start_of, target_of, boundary_set, boundary_from, empty_profile};

use crate::{ControlSigns, Direction, Profile, ReachedLimits, Start, Target};

impl Profile {
    // All doubles 0, UP, UDDU, limits None.
    #[tactic(auto, unfolding(crate::specs::Boundary::empty_profile))]
    pub fn empty() -> Profile
        ensures { result ≡ empty_profile }
    {
        Profile {
            t: [0.0; 7],
            t_sum: [0.0; 7],
            j: [0.0; 7],
            a: [0.0; 8],
            v: [0.0; 8],
            p: [0.0; 8],
            brake: 0.0,
            accel: 0.0,
            pf: 0.0,
            vf: 0.0,
            af: 0.0,
            limits: ReachedLimits::None,
            direction: Direction::UP,
            control_signs: ControlSigns::UDDU,
        }
    }

    pub fn start(self) -> Start
        ensures { result ≡ start_of self }
    {
        Start {
            p0: self.p[0],
            v0: self.v[0],
            a0: self.a[0],
        }
    }

    pub fn target(self) -> Target
        ensures { result ≡ target_of self }
    {
        Target {
            pf: self.pf,
            vf: self.vf,
            af: self.af,
        }
    }

    // The profile with another start and target. Its durations stay.
    #[tactic(auto, unfolding(crate::specs::Boundary::with_boundary))]
    pub fn with_boundary(self, start: Start, target: Target) -> Profile
        ensures { result ≡ boundary_set self start target }
    {
        let mut out = self;
        out.a[0] = start.a0;
        out.v[0] = start.v0;
        out.p[0] = start.p0;
        out.af = target.af;
        out.vf = target.vf;
        out.pf = target.pf;
        out
    }

    // The profile with the start, the target and the durations of another. Number by number: as a record update over
    // `with_boundary` it is copied twice, and a plan took 1,475 to 1,492 ns for 1,435 to 1,467 (plan_time 201).
    #[tactic(auto, unfolding(crate::specs::Boundary::with_boundary))]
    pub fn with_boundary_from_profile(self, other: Profile) -> Profile
        ensures { result ≡ boundary_from self other }
    {
        let mut out = self;
        out.a[0] = other.a[0];
        out.v[0] = other.v[0];
        out.p[0] = other.p[0];
        out.af = other.af;
        out.vf = other.vf;
        out.pf = other.pf;
        out.brake = other.brake;
        out.accel = other.accel;
        out
    }
}
