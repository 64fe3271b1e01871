use crate::build::term;
use rows::{Row, Valuation};

fn met(r: Row, scale: u32, values: &[u32]) -> bool {
    r.is_met(&Valuation { scale, values })
}

// 0 < p2 - p1
fn longer() -> Row {
    term(true, [0, -1, 1, 0, 0, 0, 0])
}

#[test]
fn the_lease_settings(rt: HostRuntime) {
    assert!(rt; met(longer(), 1000, &[30_000, 45_000]));
    assert!(rt; !met(longer(), 1000, &[45_000, 45_000]));
    assert!(rt; !met(longer(), 1000, &[45_001, 45_000]));
    assert!(rt; met(longer(), 1000, &[44_999, 45_000]));
}

#[test]
fn equality_meets_only_what_is_not_strict(rt: HostRuntime) {
    let weak = term(false, [0, -1, 1, 0, 0, 0, 0]);
    assert!(rt; met(weak, 1000, &[45_000, 45_000]));
    assert!(rt; !met(longer(), 1000, &[45_000, 45_000]));
    assert!(rt; !met(weak, 1000, &[45_001, 45_000]));
}

// 0 <= p1 - 3k: three units of time are three times the scale.
#[test]
fn a_unit_of_time_is_the_scale(rt: HostRuntime) {
    let three_units = term(false, [-3, 1, 0, 0, 0, 0, 0]);
    assert!(rt; met(three_units, 1, &[3]));
    assert!(rt; !met(three_units, 1, &[2]));
    assert!(rt; met(three_units, 2, &[6]));
    assert!(rt; !met(three_units, 2, &[5]));
    assert!(rt; met(three_units, 1000, &[3000]));
    assert!(rt; !met(three_units, 1000, &[2999]));
}

// 0 < k - p1: half a unit is 1 at scale 2, and nothing lies between 0 and 1 at scale 1.
#[test]
fn half_a_unit_is_below_one(rt: HostRuntime) {
    let below_one = term(true, [1, -1, 0, 0, 0, 0, 0]);
    assert!(rt; met(below_one, 1, &[0]));
    assert!(rt; !met(below_one, 1, &[1]));
    assert!(rt; met(below_one, 2, &[1]));
    assert!(rt; !met(below_one, 2, &[2]));
}

#[test]
fn the_largest_numbers_do_not_overflow(rt: HostRuntime) {
    let most = [1_000_000_000; 6];
    assert!(rt; met(term(true, [1_000_000; 7]), 1_000_000, &most));
    assert!(rt; !met(term(false, [-1_000_000; 7]), 1_000_000, &most));
    let all = [4_294_967_295; 6];
    assert!(rt; met(term(true, [2_147_483_647; 7]), 4_294_967_295, &all));
    assert!(rt; !met(term(false, [-2_147_483_648; 7]), 4_294_967_295, &all));
}

#[test]
fn a_missing_value_counts_as_0(rt: HostRuntime) {
    assert!(rt; !met(longer(), 1, &[]));
    assert!(rt; met(term(false, [0, -1, 1, 0, 0, 0, 0]), 1, &[]));
    assert!(rt; !met(longer(), 1, &[1]));
}

fn in_range(scale: u32, values: &[u32], parameters: u8) -> bool {
    Valuation { scale, values }.is_in_range(parameters)
}

#[test]
fn a_setting_is_in_range(rt: HostRuntime) {
    assert!(rt; in_range(1, &[], 0));
    assert!(rt; in_range(1_000_000, &[0, 1_000_000_000], 2));
    assert!(rt; !in_range(0, &[], 0));
    assert!(rt; !in_range(1_000_001, &[], 0));
    assert!(rt; !in_range(1, &[1_000_000_001, 0], 2));
    assert!(rt; !in_range(1, &[0, 1_000_000_001], 2));
}

#[test]
fn there_are_as_many_values_as_parameters(rt: HostRuntime) {
    assert!(rt; !in_range(1, &[0], 2));
    assert!(rt; in_range(1, &[0, 0], 2));
    assert!(rt; !in_range(1, &[0, 0, 0], 2));
}
