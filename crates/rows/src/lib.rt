//! Rows: bounds on the difference of two marks, linear in the scale and the parameters.
#![tactic(auto)]

mod clock_set;
mod laws;
mod row;
mod valuation;

pub use clock_set::{ClockSet, MAX_CLOCKS};
pub use row::{COEFFICIENTS, LARGEST_COEFFICIENT, Row, WAITED};
pub use valuation::{LARGEST_SCALE, LARGEST_VALUE, Valuation};
