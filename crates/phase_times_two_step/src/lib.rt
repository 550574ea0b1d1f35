// Phase times of the two-step families of step 1, as `phase_times` has those of the others. Start, target and limits
// are the three records of document 01; beside them goes k, what the Rust's planner computes once (entry 76 of
// docs/DECISIONS.md).
#![tactic(auto)]

pub mod scaled_root;
pub mod time_acc0_two_step;
pub mod time_acc1_vel_two_step;
pub mod time_none_two_step;
pub mod time_vel_two_step;
