// Certificates: whether a real lies between the two midpoints beside a candidate, by the leading digits of
// its polynomial. A no says that it doesn't, or is too near to one of them to tell.
#![tactic(auto)]

pub mod cubic;
pub mod sextic;
