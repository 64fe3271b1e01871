use crate::build::*;
use flat::Flat;
use models::{Edge, TimedModel};
use rows::ClockSet;
use std::alloc::{AllocError, Global};
use std::test::Fail;

// The clock of that place and no other.
fn clock(place: usize) -> ClockSet {
    let mut set = NO_CLOCKS;
    if let Some(member) = set.members.get_mut(place) {
        *member = true;
    }
    set
}

// Whether the edge, between two others, makes a model of 64 locations and so many clocks, or the shut model.
fn is_right(heap: Global, clocks: u8, tried: Edge, model: bool) -> Result<bool, AllocError> {
    let mut given = lists(heap, 64, 0)?;
    let other = edge(0, 0, 1, NO_CLOCKS);
    given.clocks = clocks;
    given.edges = vec![in heap; other, tried, other]?;
    gives(heap, given, model)
}

// Each limit of an edge, at it and past it.
fn cases() -> [(u8, Edge, bool); 13] {
    [
        (6, edge(63, 0, 1, NO_CLOCKS), true),
        (6, edge(64, 0, 1, NO_CLOCKS), false),
        (6, edge(0, 63, 1, NO_CLOCKS), true),
        (6, edge(0, 64, 1, NO_CLOCKS), false),
        (6, edge(0, 0, 15, NO_CLOCKS), true),
        (6, edge(0, 0, 16, NO_CLOCKS), false),
        (3, edge(0, 0, 1, clock(2)), true),
        (2, edge(0, 0, 1, clock(2)), false),
        (6, edge(0, 0, 1, clock(5)), true),
        (5, edge(0, 0, 1, clock(5)), false),
        (1, edge(0, 0, 1, clock(0)), true),
        (0, edge(0, 0, 1, clock(0)), false),
        (0, edge(0, 0, 1, NO_CLOCKS), true),
    ]
}

#[test]
fn limits(rt: HostRuntime) -> Result<(), Fail> {
    for (clocks, tried, model) in cases() {
        assert!(rt; is_right(rt.alloc(), clocks, tried, model)?);
    }
    Ok(())
}

// Edges with actions 0, 15 and 3.
fn uses_three_and_fifteen(model: &Flat) -> bool {
    (0..=255u8).all(|x| model.uses(x) == (x == 3 || x == 15))
}

#[test]
fn used_actions(rt: HostRuntime) -> Result<(), Fail> {
    let heap = rt.alloc();
    let mut given = lists(heap, 1, 0)?;
    given.edges = vec![in heap;
        edge(0, 0, 0, NO_CLOCKS),
        edge(0, 0, 15, NO_CLOCKS),
        edge(0, 0, 3, NO_CLOCKS),
    ]?;
    assert!(rt; uses_three_and_fifteen(&flat(heap, given)?));
    Ok(())
}
