use crate::build::*;
use std::alloc::{AllocError, Global};
use std::test::Fail;

// Numbers and counts, and whether lists with them make a model.
#[derive(Clone, Copy, Debug)]
struct Case {
    clocks: u8,
    parameters: u8,
    first: u8,
    locations: usize,
    edges: usize,
    model: bool,
}

fn sized(
    clocks: u8,
    parameters: u8,
    first: u8,
    locations: usize,
    edges: usize,
    model: bool,
) -> Case {
    Case {
        clocks,
        parameters,
        first,
        locations,
        edges,
        model,
    }
}

// Each limit, at it and past it.
fn cases() -> [Case; 16] {
    [
        sized(6, 6, 0, 2, 1, true),
        sized(7, 6, 0, 2, 1, false),
        sized(6, 7, 0, 2, 1, false),
        sized(255, 255, 0, 2, 1, false),
        sized(0, 0, 0, 1, 0, true),
        sized(6, 6, 0, 0, 0, false),
        sized(6, 6, 0, 1, 0, true),
        sized(6, 6, 0, 64, 0, true),
        sized(6, 6, 0, 65, 0, false),
        sized(6, 6, 63, 64, 1, true),
        sized(6, 6, 64, 64, 1, false),
        sized(6, 6, 1, 1, 0, false),
        sized(6, 6, 0, 2, 512, true),
        sized(6, 6, 0, 2, 513, false),
        // these would fit if only their last bits were looked at
        sized(6, 6, 0, 257, 1, false),
        sized(6, 6, 0, 2, 65_537, false),
    ]
}

fn is_right(heap: Global, c: Case) -> Result<bool, AllocError> {
    let mut given = lists(heap, c.locations, c.edges)?;
    given.clocks = c.clocks;
    given.parameters = c.parameters;
    given.first = c.first;
    gives(heap, given, c.model)
}

#[test]
fn limits(rt: HostRuntime) -> Result<(), Fail> {
    for case in cases() {
        assert!(rt; is_right(rt.alloc(), case)?, "{case:?}");
    }
    Ok(())
}
