//! What is checked, in formulas that a person reads.
#![tactic(auto)]

mod formula;

pub use formula::Formula;
