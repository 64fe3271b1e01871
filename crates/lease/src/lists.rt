use flat::{AttachedRow, Description, Flat, Location, Room};
use models::Edge;
use rows::{ClockSet, MAX_CLOCKS, Row};
use std::alloc::{AllocError, Global};

const NO_CLOCKS: ClockSet = ClockSet {
    members: [false; MAX_CLOCKS],
};

const CLOCK_1: ClockSet = ClockSet {
    members: [true, false, false, false, false, false],
};

// While an editor writes, at location 0, the last renewal is at most p1 ago.
const WRITING: AttachedRow = AttachedRow {
    owner: 0,
    row: Row {
        i: 1,
        j: 0,
        strict: false,
        t: [0, 1, 0, 0, 0, 0, 0],
    },
};

// Edge 1 may be taken when the last renewal is at least p2 ago.
const SILENT: AttachedRow = AttachedRow {
    owner: 1,
    row: Row {
        i: 0,
        j: 1,
        strict: false,
        t: [0, 0, -1, 0, 0, 0, 0],
    },
};

// The editor renews, which sets the clock to 0.
const RENEW: Edge = Edge {
    source: 0,
    target: 0,
    action: 1,
    resets: CLOCK_1,
};

// A second editor gets in.
const SECOND: Edge = Edge {
    source: 0,
    target: 1,
    action: 0,
    resets: NO_CLOCKS,
};

// Location 0: one editor writes. Location 1: two do, which is bad.
pub(crate) fn lease(heap: Global) -> Result<Flat, AllocError> {
    let room = Room::new(heap)?;
    let lists = Description {
        clocks: 1,
        parameters: 2,
        first: 0,
        locations: vec![in heap; Location { bad: false }, Location { bad: true }]?,
        invariants: vec![in heap; WRITING]?,
        edges: vec![in heap; RENEW, SECOND]?,
        guards: vec![in heap; SILENT]?,
    };
    Ok(Flat::new(room, lists))
}
