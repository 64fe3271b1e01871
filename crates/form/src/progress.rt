/// How far a text is read: which table is open, or what is due.
#[derive(Clone, Copy, Debug, PartialEq, Eq, Hash)]
pub enum Stage {
    /// Nothing is read.
    Empty,
    /// The names of the first table are read, and its line of values is due.
    Named,
    /// The first table is read, and the names of the second are due.
    Headed,
    /// The table of locations is open.
    Locations,
    /// The table of invariant rows is open.
    Invariants,
    /// The table of edges is open.
    Edges,
    /// The table of guard rows is open.
    Guards,
}

/// What a line is: the names of a table, or anything else, which only values can be.
#[derive(Clone, Copy, Debug, PartialEq, Eq, Hash)]
pub enum Kind {
    HeadingNames,
    LocationNames,
    InvariantNames,
    EdgeNames,
    GuardNames,
    Values,
}

/// The line of values of the first table.
#[derive(Clone, Copy, Debug, PartialEq, Eq, Hash)]
pub struct Heading {
    pub clocks: u8,
    pub parameters: u8,
    /// How many locations there are to be.
    pub locations: u8,
    pub first: u8,
}

/// The owner of the last row of the open table, and how many rows it has so far.
#[derive(Clone, Copy, Debug, PartialEq, Eq, Hash)]
pub struct Latest {
    pub owner: u16,
    pub rows: u8,
}

/// Where a reader stands in a text, apart from what its lists hold.
#[derive(Clone, Copy, Debug, PartialEq, Eq, Hash)]
pub struct Progress {
    pub stage: Stage,
    pub heading: Heading,
    pub latest: Latest,
}
