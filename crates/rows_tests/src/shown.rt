use crate::build::{on, term};
use report::Formula;
use rows::Row;
use std::process::Abort;
use std::test::Fail;

fn shown(rt: &(impl Abort + AllocGlobal), row: Row, text: &str) -> Result<(), Fail> {
    let formula = Formula { row };
    let s = format!(in rt.alloc(); "{formula}")?;
    assert_eq!(rt; s.as_str(), text);
    Ok(())
}

#[test]
fn a_term(rt: HostRuntime) -> Result<(), Fail> {
    shown(&rt, term(true, [0, -1, 1, 0, 0, 0, 0]), "0 < p2 - p1")?;
    shown(&rt, term(false, [0; 7]), "0 <= 0")?;
    shown(&rt, term(true, [-1, 0, 0, 0, 0, 0, -2]), "0 < 0 - k - 2p6")
}

#[test]
fn a_bound_on_clocks(rt: HostRuntime) -> Result<(), Fail> {
    let weak = Row {
        t: [3, 1, 0, 0, 0, 0, 0],
        ..on(1, 0)
    };
    let strict = Row {
        strict: true,
        t: [1, 0, 0, 0, 0, 0, -2_147_483_648],
        ..on(0, 7)
    };
    shown(&rt, weak, "x1 - x0 <= 3k + p1")?;
    shown(&rt, strict, "x0 - x7 < k - 2147483648p6")
}
