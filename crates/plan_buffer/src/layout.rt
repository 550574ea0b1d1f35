// Where the parts of a plan stand in a buffer, and how long they are: its duration, its profile, and two stretches,
// each its kind, two ends and a profile.

use profile::{DOUBLES, NAMES};

const PROFILE_LENGTH: usize = NAMES + DOUBLES;

pub const ENDS_LENGTH: usize = 3;

const INTERVAL_LENGTH: usize = ENDS_LENGTH + PROFILE_LENGTH;

pub const DURATION_AT: usize = 0;

pub const PROFILE_AT: usize = DURATION_AT + 1;

pub const STRETCH_A_AT: usize = PROFILE_AT + PROFILE_LENGTH;

pub const STRETCH_B_AT: usize = STRETCH_A_AT + INTERVAL_LENGTH;

pub const PLAN_LENGTH: usize = STRETCH_B_AT + INTERVAL_LENGTH;
