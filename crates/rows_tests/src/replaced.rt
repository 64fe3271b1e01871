use crate::build::on;
use rows::{ClockSet, Row};

// A strict row with a coefficient, on these marks.
fn row(i: u8, j: u8) -> Row {
    Row {
        strict: true,
        t: [0, 1, 0, 0, 0, 0, 0],
        ..on(i, j)
    }
}

// Clocks 1 and 6.
const ENDS: ClockSet = ClockSet {
    members: [true, false, false, false, false, true],
};

#[test]
fn a_set_has_its_clocks(rt: HostRuntime) {
    assert!(rt; !ENDS.has(0));
    assert!(rt; ENDS.has(1));
    assert!(rt; !ENDS.has(2));
    assert!(rt; !ENDS.has(5));
    assert!(rt; ENDS.has(6));
    assert!(rt; !ENDS.has(7));
    assert!(rt; !ENDS.has(255));
}

#[test]
fn a_set_is_within_its_last_clock(rt: HostRuntime) {
    assert!(rt; ENDS.is_within(6));
    assert!(rt; ENDS.is_within(255));
    assert!(rt; !ENDS.is_within(5));
    assert!(rt; !ENDS.is_within(0));
    assert!(rt; ClockSet::default().is_within(0));
}

#[test]
fn a_reset_clock_becomes_mark_0(rt: HostRuntime) {
    assert_eq!(rt; row(1, 0).before_reset(&ENDS), row(0, 0));
    assert_eq!(rt; row(0, 6).before_reset(&ENDS), row(0, 0));
    assert_eq!(rt; row(1, 2).before_reset(&ENDS), row(0, 2));
    assert_eq!(rt; row(2, 6).before_reset(&ENDS), row(2, 0));
    assert_eq!(rt; row(2, 3).before_reset(&ENDS), row(2, 3));
    assert_eq!(rt; row(0, 7).before_reset(&ENDS), row(0, 7));
}

#[test]
fn mark_0_becomes_7_where_the_marks_differ(rt: HostRuntime) {
    assert_eq!(rt; row(1, 0).after_wait(), row(1, 7));
    assert_eq!(rt; row(0, 1).after_wait(), row(7, 1));
    assert_eq!(rt; row(1, 2).after_wait(), row(1, 2));
    assert_eq!(rt; row(0, 0).after_wait(), row(0, 0));
}
