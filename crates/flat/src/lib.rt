//! The flat model: a model that stands on four lists.
#![tactic(auto)]

mod actions;
mod description;
mod flat;
mod groups;
mod index;
mod laws;
mod room;

pub use description::{AttachedRow, Description, Location};
pub use flat::Flat;
pub use room::Room;
