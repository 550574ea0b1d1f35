// What roots.rs gives the planner: the list of roots, the resolvent and the quartic. The definitions that the contracts
// cite are in specs/.
#![tactic(auto)]

mod list; // list.rt: the list of roots
mod resolvent; // resolvent.rt: the zeros of a cubic from which a quartic's factors come
mod quartic; // quartic.rt: the roots of a quartic

pub use list::Roots;
pub use quartic::solve_quart_monic_coeffs;
pub use resolvent::{Zeros, solve_resolvent};
