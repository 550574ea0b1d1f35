// Real numbers that are roots of polynomials, in half units of the last place of a significand of 53
// digits: compared with whole numbers, and rounded one binary digit a round.
#![tactic(auto)]

pub mod digits;
mod number; // number.rt: the numbers that stand for a real, each in its range
pub mod order;

pub use number::{Binade, Cosine, CubeRoot, Sign, Sine, Size};
pub use order::Algebraic;
