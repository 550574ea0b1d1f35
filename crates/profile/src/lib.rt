// A motion profile of one axis, its boundary and its limits: what profile.rs declares, by value. The definitions that
// the contracts cite are in specs/.
#![tactic(auto)]

ghost use Rattle.std.specs.Prelude.{◌≡◌};
ghost use Rattle.profile.specs.Tolerances.{v_eps, a_eps, j_eps, p_precision, v_precision, a_precision, t_max};

mod names; // names.rt: what a name of reached limits asks of the check
mod range; // range.rt: limits for the opposite direction, and as rows are held to them
mod boundary; // boundary.rt: a profile's start, target and durations
mod layout; // layout.rt: a profile's doubles in their order
mod lent; // lent.rt: the two functions that change a lent profile

pub use layout::{DOUBLES, NAMES};

// The names that the Rust's profile.rs declares. They are closed lists: the definitions name every case.
#[derive(Clone, Copy, PartialEq, Eq)]
pub enum ReachedLimits {
    Acc0Acc1Vel,
    Vel,
    Acc0,
    Acc1,
    Acc0Acc1,
    Acc0Vel,
    Acc1Vel,
    None,
}

#[derive(Clone, Copy, PartialEq, Eq)]
pub enum Direction {
    UP,
    DOWN,
}

#[derive(Clone, Copy, PartialEq, Eq)]
pub enum ControlSigns {
    UDDU,
    UDUD,
}

// Seven phases of constant jerk, and the eight rows before and after them. brake and accel are durations that are only
// added. Arrays side by side, and pf, vf and af beside them, as document 01 has a profile.
#[derive(Clone, Copy)]
pub struct Profile {
    pub t: [f64; 7],
    pub t_sum: [f64; 7],
    pub j: [f64; 7],
    pub a: [f64; 8],
    pub v: [f64; 8],
    pub p: [f64; 8],
    pub brake: f64,
    pub accel: f64,
    pub pf: f64,
    pub vf: f64,
    pub af: f64,
    pub limits: ReachedLimits,
    pub direction: Direction,
    pub control_signs: ControlSigns,
}

#[derive(Clone, Copy)]
pub struct Start {
    pub p0: f64,
    pub v0: f64,
    pub a0: f64,
}

#[derive(Clone, Copy)]
pub struct Target {
    pub pf: f64,
    pub vf: f64,
    pub af: f64,
}

#[derive(Clone, Copy)]
pub struct Limits {
    pub v_max: f64,
    pub v_min: f64,
    pub a_max: f64,
    pub a_min: f64,
    pub j_max: f64,
}

// Limits moved out by their tolerances, the upper ones above the lower.
#[derive(Clone, Copy)]
pub struct Bounds {
    pub v_upp_lim: f64,
    pub v_low_lim: f64,
    pub a_upp_lim: f64,
    pub a_low_lim: f64,
}

impl Profile {
    pub const V_EPS: f64 = 1e-12;

    pub const A_EPS: f64 = 1e-12;

    pub const J_EPS: f64 = 1e-12;

    pub const P_PRECISION: f64 = 1e-8;

    pub const V_PRECISION: f64 = 1e-8;

    pub const A_PRECISION: f64 = 1e-10;

    pub const T_MAX: f64 = 1e12;
}

// The constants of the code are those of the definitions.
pub fn constants()
    ensures eps { (Profile.V_EPS ≡ v_eps) × (Profile.A_EPS ≡ a_eps) × (Profile.J_EPS ≡ j_eps) }
    ensures precision { (Profile.P_PRECISION ≡ p_precision) × (Profile.V_PRECISION ≡ v_precision)
        × (Profile.A_PRECISION ≡ a_precision) }
    ensures longest { Profile.T_MAX ≡ t_max }
{}
