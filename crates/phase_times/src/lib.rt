// Phase times of the tries of step 1 in closed form, each beside the line of position_third_step1.rs that it is: the
// same operations in the same order. Nothing here knows which try comes next, and nothing takes a square root: a
// formula is given the root, of a radicand that stands beside it. Here are time_all_vel, time_acc0_acc1 and
// time_all_single_step, and the planner's constants. Start, target and limits are the three records of document 01;
// beside them goes k, what the Rust's planner computes once (entry 76 of docs/DECISIONS.md).
#![tactic(auto)]

pub mod constants;
pub mod time_acc0_acc1;
pub mod time_all_single_step;
pub mod time_all_vel;
