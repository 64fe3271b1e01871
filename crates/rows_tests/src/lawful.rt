use crate::build::{on, term};
use rows::COEFFICIENTS;

#[test]
fn marks_reach_the_number_of_clocks(rt: HostRuntime) {
    assert!(rt; on(2, 0).is_lawful(2, 0));
    assert!(rt; !on(3, 0).is_lawful(2, 0));
    assert!(rt; on(0, 2).is_lawful(2, 0));
    assert!(rt; !on(0, 3).is_lawful(2, 0));
}

#[test]
fn the_time_waited_is_no_clock(rt: HostRuntime) {
    assert!(rt; on(6, 0).is_lawful(6, 6));
    assert!(rt; !on(7, 0).is_lawful(6, 6));
    assert!(rt; !on(0, 7).is_lawful(6, 6));
}

#[test]
fn marks_differ_or_are_both_0(rt: HostRuntime) {
    assert!(rt; on(0, 0).is_lawful(0, 0));
    assert!(rt; on(1, 2).is_lawful(2, 0));
    assert!(rt; !on(1, 1).is_lawful(2, 0));
}

// Whether a row with these coefficients is lawful where there are so many parameters.
fn lawful(t: [i32; COEFFICIENTS], parameters: u8) -> bool {
    term(false, t).is_lawful(0, parameters)
}

#[test]
fn a_coefficient_is_at_its_limit(rt: HostRuntime) {
    assert!(rt; lawful([1_000_000, 0, 0, 0, 0, 0, 0], 0));
    assert!(rt; lawful([-1_000_000, 0, 0, 0, 0, 0, 0], 0));
    assert!(rt; lawful([0, 0, 0, 0, 0, 0, 1_000_000], 6));
    assert!(rt; lawful([0, 0, 0, 0, 0, 0, -1_000_000], 6));
}

#[test]
fn a_coefficient_is_past_its_limit(rt: HostRuntime) {
    assert!(rt; !lawful([1_000_001, 0, 0, 0, 0, 0, 0], 0));
    assert!(rt; !lawful([-1_000_001, 0, 0, 0, 0, 0, 0], 0));
    assert!(rt; !lawful([0, 0, 0, 0, 0, 0, 1_000_001], 6));
    assert!(rt; !lawful([0, 0, 0, 0, 0, 0, -2_147_483_648], 6));
}

#[test]
fn a_parameter_is_there_or_not(rt: HostRuntime) {
    assert!(rt; lawful([0, 0, 1, 0, 0, 0, 0], 2));
    assert!(rt; !lawful([0, 0, 1, 0, 0, 0, 0], 1));
    assert!(rt; lawful([1, 0, 0, 0, 0, 0, 0], 0));
    assert!(rt; !lawful([0, 1, 0, 0, 0, 0, 0], 0));
}
