use crate::build::*;
use models::{Shape, Shut, TimedModel, has_bad_location};
use std::test::Fail;

#[test]
fn the_shut_model(rt: HostRuntime) {
    assert!(rt; is_shut(&Shut));
    assert!(rt; !Shut.uses(0));
    assert!(rt; !Shut.bad(255));
    assert!(rt; Shut.invariant_row(0, 0).is_none());
    assert!(rt; Shut.edge(0).is_none());
    assert!(rt; Shut.guard_row(0, 0).is_none());
    assert!(rt; has_bad_location(&Shut));
}

// Location 63, the last, is the only bad one.
#[test]
fn every_location_is_looked_at(rt: HostRuntime) -> Result<(), Fail> {
    let heap = rt.alloc();
    let mut marked = lists(heap, 64, 0)?;
    if let Some(last) = marked.locations.get_mut(63) {
        last.bad = true;
    }
    assert!(rt; !has_bad_location(&flat(heap, lists(heap, 64, 0)?)?));
    assert!(rt; has_bad_location(&flat(heap, marked)?));
    Ok(())
}

const LARGEST: Shape = Shape {
    clocks: 6,
    parameters: 6,
    locations: 64,
    first: 63,
    slots: 512,
    invariants: 8,
    guards: 8,
};

fn shapes_past_a_limit() -> [Shape; 8] {
    [
        Shape {
            clocks: 7,
            ..LARGEST
        },
        Shape {
            parameters: 7,
            ..LARGEST
        },
        Shape {
            locations: 65,
            ..LARGEST
        },
        Shape {
            first: 64,
            ..LARGEST
        },
        Shape {
            slots: 513,
            ..LARGEST
        },
        Shape {
            invariants: 9,
            ..LARGEST
        },
        Shape {
            guards: 9,
            ..LARGEST
        },
        Shape {
            locations: 0,
            first: 0,
            ..LARGEST
        },
    ]
}

#[test]
fn limits_of_numbers(rt: HostRuntime) {
    assert!(rt; LARGEST.is_within_limits());
    assert!(rt; Shut.shape().is_within_limits());
    for shape in shapes_past_a_limit() {
        assert!(rt; !shape.is_within_limits());
    }
}

#[test]
fn limits_of_edges(rt: HostRuntime) {
    assert!(rt; LARGEST.admits(&edge(63, 63, 15, NO_CLOCKS)));
    assert!(rt; !LARGEST.admits(&edge(64, 63, 15, NO_CLOCKS)));
    assert!(rt; !LARGEST.admits(&edge(63, 64, 15, NO_CLOCKS)));
    assert!(rt; !LARGEST.admits(&edge(63, 63, 16, NO_CLOCKS)));
}
