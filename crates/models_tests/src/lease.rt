use crate::build::{NO_CLOCKS, edge, flat, owned};
use flat::{Description, Flat, Location};
use models::{Shape, TimedModel, has_bad_location};
use rows::{ClockSet, Row};
use std::alloc::{AllocError, Global};
use std::test::Fail;

const CLOCK_1: ClockSet = ClockSet {
    members: [true, false, false, false, false, false],
};

// x1 - x0 <= p1
const RENEWED: Row = Row {
    i: 1,
    j: 0,
    strict: false,
    t: [0, 1, 0, 0, 0, 0, 0],
};

// x0 - x1 <= -p2
const SILENT: Row = Row {
    i: 0,
    j: 1,
    strict: false,
    t: [0, 0, -1, 0, 0, 0, 0],
};

// An editor renews within p1; after p2 without renewal a second one gets in.
fn lease_lists(heap: Global) -> Result<Description, AllocError> {
    Ok(Description {
        clocks: 1,
        parameters: 2,
        first: 0,
        locations: vec![in heap; Location { bad: false }, Location { bad: true }]?,
        invariants: vec![in heap; owned(0, RENEWED)]?,
        edges: vec![in heap; edge(0, 0, 1, CLOCK_1), edge(0, 1, 0, NO_CLOCKS)]?,
        guards: vec![in heap; owned(1, SILENT)]?,
    })
}

const NUMBERS: Shape = Shape {
    clocks: 1,
    parameters: 2,
    locations: 2,
    first: 0,
    slots: 2,
    invariants: 1,
    guards: 1,
};

// Location 1 is bad and no other; action 1 is used and no other, since action 0 is never used.
fn has_its_marks(model: &Flat) -> bool {
    (0..=255u8).all(|x| model.bad(x) == (x == 1) && model.uses(x) == (x == 1))
        && has_bad_location(model)
}

fn has_its_invariants(model: &Flat) -> bool {
    (1..=255u8).all(|q| model.invariant_count(q) == 0 && model.invariant_row(q, 0).is_none())
        && model.invariant_count(0) == 1
        && model.invariant_row(0, 0) == Some(RENEWED)
        && model.invariant_row(0, 1).is_none()
}

fn has_its_edges(model: &Flat) -> bool {
    (2..=65_535u16).all(|k| model.edge(k).is_none())
        && model.edge(0) == Some(edge(0, 0, 1, CLOCK_1))
        && model.edge(1) == Some(edge(0, 1, 0, NO_CLOCKS))
}

fn has_its_guards(model: &Flat) -> bool {
    (2..=65_535u16).all(|k| model.guard_count(k) == 0 && model.guard_row(k, 0).is_none())
        && model.guard_count(0) == 0
        && model.guard_row(0, 0).is_none()
        && model.guard_count(1) == 1
        && model.guard_row(1, 0) == Some(SILENT)
        && model.guard_row(1, 1).is_none()
}

#[test]
fn every_question(rt: HostRuntime) -> Result<(), Fail> {
    let heap = rt.alloc();
    let model = flat(heap, lease_lists(heap)?)?;
    assert!(rt; model.is_well_formed());
    assert_eq!(rt; model.shape(), NUMBERS);
    assert!(rt; has_its_marks(&model), "bad locations and used actions");
    assert!(rt; has_its_invariants(&model), "invariants");
    assert!(rt; has_its_edges(&model), "edges");
    assert!(rt; has_its_guards(&model), "guards");
    assert_eq!(rt; model.into_lists(), lease_lists(heap)?);
    Ok(())
}
