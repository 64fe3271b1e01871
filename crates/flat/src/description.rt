use models::Edge;
use rows::Row;

/// A location of a flat model. Its number is its place in the list, and so is that of an edge.
#[derive(Clone, Copy, Debug, PartialEq, Eq, Hash)]
pub struct Location {
    pub bad: bool,
}

/// An invariant row with the number of its location, or a guard row with the number of its edge: its owner.
#[derive(Clone, Copy, Debug, PartialEq, Eq, Hash)]
pub struct AttachedRow {
    pub owner: u16,
    pub row: Row,
}

/// What a flat model stands on: three numbers, and four lists that keep their order. The rows of one owner need not stand
/// together.
#[derive(Debug, PartialEq, Eq, Drop)]
pub struct Description {
    pub clocks: u8,
    pub parameters: u8,
    /// The number of the first location.
    pub first: u8,
    pub locations: Vec<Location>,
    pub invariants: Vec<AttachedRow>,
    pub edges: Vec<Edge>,
    pub guards: Vec<AttachedRow>,
}

impl Description {
    ghost use Rattle.std.specs.Prelude.{◌≡◌};
    ghost use Rattle.std.specs.List.{slice_get};
    ghost use Rattle.flat.specs.Lists.{is_bad};

    // Whether the location is there and bad.
    pub(crate) fn is_bad(&self, location: u8) -> bool
        ensures value { result ≡ is_bad (slice_get self.now.locations.items location) }
    {
        self.locations
            .get(usize::from(location))
            .is_some_and(|location| location.bad)
    }

    // The edge of that number, if it is there.
    pub(crate) fn edge(&self, number: u16) -> Option<Edge>
        ensures value { result ≡ slice_get self.now.edges.items number }
    {
        self.edges.get(usize::from(number)).copied()
    }
}
