//! Lines of values: what a line writes, and what is read of it.
#![tactic(auto)]

mod values;

pub use values::{MAX_VALUES, Values};
