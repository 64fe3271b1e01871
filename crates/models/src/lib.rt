//! Models: the table that a parametric timed automaton means, the interface that every model keeps, and runs.
#![tactic(auto)]

mod bad;
mod edge;
mod laws;
mod model;
mod shape;
mod shut;

pub use bad::has_bad_location;
pub use edge::Edge;
pub use model::TimedModel;
pub use shape::{
    ACTIONS, LARGEST_ACTION, MAX_LOCATIONS, MAX_PARAMETERS, MAX_ROWS, MAX_SLOTS, Shape,
};
pub use shut::Shut;
