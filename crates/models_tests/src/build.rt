use flat::{AttachedRow, Description, Flat, Location, Room};
use models::{Edge, Shape, TimedModel};
use rows::{COEFFICIENTS, ClockSet, MAX_CLOCKS, Row};
use std::alloc::{AllocError, Global};

pub(crate) const NO_CLOCKS: ClockSet = ClockSet {
    members: [false; MAX_CLOCKS],
};

// x1 - x0 <= t0 units + t1 p1 + ...
pub(crate) fn bound(t: [i32; COEFFICIENTS]) -> Row {
    Row {
        i: 1,
        t,
        ..Row::default()
    }
}

// xi - xj <= t0 units
pub(crate) fn row(i: u8, j: u8, t0: i32) -> Row {
    Row {
        i,
        j,
        ..bound([t0, 0, 0, 0, 0, 0, 0])
    }
}

// The same bound, strict.
pub(crate) fn strictly(row: Row) -> Row {
    Row {
        strict: true,
        ..row
    }
}

pub(crate) fn owned(owner: u16, row: Row) -> AttachedRow {
    AttachedRow { owner, row }
}

pub(crate) fn edge(source: u8, target: u8, action: u8, resets: ClockSet) -> Edge {
    Edge {
        source,
        target,
        action,
        resets,
    }
}

// Six clocks and parameters, so many good locations, so many edges from 0 to 0, no rows.
pub(crate) fn lists(
    heap: Global,
    locations: usize,
    edges: usize,
) -> Result<Description, AllocError> {
    Ok(Description {
        clocks: 6,
        parameters: 6,
        first: 0,
        locations: vec![in heap; Location { bad: false }; locations]?,
        invariants: Vec::new(heap),
        edges: vec![in heap; edge(0, 0, 1, NO_CLOCKS); edges]?,
        guards: Vec::new(heap),
    })
}

// One location, and nothing else.
const SHUT: Shape = Shape {
    clocks: 0,
    parameters: 0,
    locations: 1,
    first: 0,
    slots: 0,
    invariants: 0,
    guards: 0,
};

// Whether the model answers as the shut model does.
pub(crate) fn is_shut<M: TimedModel>(model: &M) -> bool {
    model.shape() == SHUT
        && model.bad(0)
        && !model.bad(1)
        && !model.uses(1)
        && model.invariant_count(0) == 0
        && model.edge(0).is_none()
        && model.guard_count(0) == 0
}

pub(crate) fn flat(heap: Global, lists: Description) -> Result<Flat, AllocError> {
    Ok(Flat::new(Room::new(heap)?, lists))
}

// Whether the lists make a model that is not shut, if `model`, or the shut model, if not; and as many edges are given back
// either way.
pub(crate) fn gives(heap: Global, lists: Description, model: bool) -> Result<bool, AllocError> {
    let edges = lists.edges.len();
    let made = flat(heap, lists)?;
    let answers = made.is_well_formed() == model && is_shut(&made) != model;
    let back = made.into_lists();
    Ok(answers && back.edges.len() == edges)
}
