//! The form of model texts, and where a reader stands in one.
#![tactic(auto)]

mod progress;

pub use progress::{Heading, Kind, Latest, Progress, Stage};
