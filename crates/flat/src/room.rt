ghost use Rattle.std.specs.Prelude.{◌≡◌, List, [], replicate, IfOk};
ghost use Rattle.rows.specs.declared.row.Row.{Row};
ghost use Rattle.flat.specs.Groups.{listed};

use crate::groups::Groups;
use models::{MAX_LOCATIONS, MAX_SLOTS};
use std::alloc::{AllocError, Global};
use std::marker::Model;

/// The memory that one flat model needs, whatever its lists: space for the rows of every location and every edge that there
/// may be. It has no rows in it.
#[derive(Debug, Drop)]
pub struct Room {
    pub(crate) invariants: Groups,
    pub(crate) guards: Groups,
}

/// A room is seen as the rows in it: those of each location, and those of each edge.
impl Model for Room {
    ghost Value = { List (List Row) × List (List Row) };

    ghost view = { λ r. (listed r.invariants, listed r.guards) };

    ghost invariant = { λ r. (listed r.invariants ≡ replicate 64 []) × (listed r.guards ≡ replicate 512 []) };
}

impl Room {
    /// Takes the memory. Nothing else in the making of a flat model can fail.
    pub fn new(heap: Global) -> Result<Room, AllocError>
        ensures made { IfOk result (λ room. room ≡ (replicate 64 [], replicate 512 [])) }
    {
        let invariants = Groups::empty(heap, usize::from(MAX_LOCATIONS))?;
        let guards = Groups::empty(heap, usize::from(MAX_SLOTS))?;
        Ok(Room { invariants, guards })
    }
}
