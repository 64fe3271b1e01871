ghost use Rattle.std.specs.Prelude.{◌≡◌, Decides};
ghost use Rattle.models.specs.Tables.{ShapeLimits, EdgeLimits, is_within_limits, is_admitted};

use crate::edge::Edge;
use rows::MAX_CLOCKS;

/// The most parameters that a model may have.
pub const MAX_PARAMETERS: u8 = 6;

/// The most locations that a model may have.
pub const MAX_LOCATIONS: u8 = 64;

/// The most edge slots that a model may have.
pub const MAX_SLOTS: u16 = 512;

/// The most invariant rows of a location, and the most guard rows of an edge.
pub const MAX_ROWS: usize = 8;

/// The largest action. Action 0 is internal.
pub const LARGEST_ACTION: u8 = 15;

/// How many actions there are, from 0 to the largest.
// A constant cannot call `usize::from`.
pub const ACTIONS: usize = LARGEST_ACTION as usize + 1;

/// The numbers of a model's table: how many clocks, parameters, locations and slots there are, the first location, and two
/// bounds on the numbers of rows, the row figures.
#[derive(Clone, Copy, Debug, PartialEq, Eq, Hash)]
pub struct Shape {
    pub clocks: u8,
    pub parameters: u8,
    /// How many locations there are.
    pub locations: u8,
    /// The first location.
    pub first: u8,
    /// How many edge slots there are.
    pub slots: u16,
    /// The invariant figure: no location has more invariant rows.
    pub invariants: u8,
    /// The guard figure: no edge has more guard rows.
    pub guards: u8,
}

impl Shape {
    /// Whether a model may have these numbers.
    pub fn is_within_limits(&self) -> bool
        ensures decides { Decides result (ShapeLimits self.now) }
        ensures value { result ≡ is_within_limits self.now }
    {
        usize::from(self.clocks) <= MAX_CLOCKS
            && self.parameters <= MAX_PARAMETERS
            && (1..=MAX_LOCATIONS).contains(&self.locations)
            && self.first < self.locations
            && self.slots <= MAX_SLOTS
            && usize::from(self.invariants) <= MAX_ROWS
            && usize::from(self.guards) <= MAX_ROWS
    }

    /// Whether a model with these numbers may have the edge: it joins two locations, its action is within the limit, and
    /// it resets none but clocks of the model.
    pub fn admits(&self, edge: &Edge) -> bool
        ensures decides { Decides result (EdgeLimits self.now edge.now) }
        ensures value { result ≡ is_admitted self.now edge.now }
    {
        edge.source < self.locations
            && edge.target < self.locations
            && edge.action <= LARGEST_ACTION
            && edge.resets.is_within(self.clocks)
    }
}
