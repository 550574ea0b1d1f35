// The families of step 1: position_third_step1.rs up to `get_profile`. A family is a row of at most four slots, each of
// which holds a try or none, in the Rust's order. What a try's times are stands in `phase_times` and the crates beside
// it; which try is where stands here; what is done with them is `search`'s. No try depends on what the check says of
// another. Start, target and limits are three records, since document 01 has each of them travel as one; k, the constants
// that the Rust computes once, goes beside them (entry 76 of docs/DECISIONS.md). The definitions that the contracts cite are in
// specs/.
#![tactic(auto)]

mod families; // families.rt: the families by name, and what the tries of one share
mod slots; // slots.rt: the slots of any family
mod all_vel; // all_vel.rt: time_all_vel
mod acc0_acc1; // acc0_acc1.rt: time_acc0_acc1
mod none_acc0_acc1; // none_acc0_acc1.rt: time_all_none_acc0_acc1
mod two_step; // two_step.rt: the four two-step families
mod single_step; // single_step.rt: time_all_single_step

pub use families::{Family, Shared};
pub use slots::{shared, slot_count, slot_holds, slot_times, try_by};
