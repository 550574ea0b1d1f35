// Phase times of time_all_none_acc0_acc1, as `phase_times` has those of other families: three polynomials, the range
// and the correction of their roots, and the times of a corrected root. The roots themselves are found elsewhere. The
// Rust's own j_max_j_max of this family and the planner's, k.j_max_j_max, each stand where the Rust has them; they are
// the same double. Whether a polynomial has a solution is asked of ACC1's as it stands, of ACC0's shifted by its
// range's t_min. Start, target and limits are the three records of document 01; beside them goes k, what the Rust's
// planner computes once (entry 76 of docs/DECISIONS.md).
#![tactic(auto)]

pub mod correction_acc1;
pub mod quartic;
pub mod root_range;
pub mod time_acc0;
pub mod time_acc1;
pub mod time_none;
