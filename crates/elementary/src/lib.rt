// The elementary functions on doubles as definitions, with their theorems: no code. The routines are crates of their
// own.
#![tactic(auto)]
