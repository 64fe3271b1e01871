use rows::{COEFFICIENTS, Row};

// 0 <= 0 on these marks: no coefficient is there yet.
pub(crate) fn on(i: u8, j: u8) -> Row {
    Row {
        i,
        j,
        ..Row::default()
    }
}

// A row that asks nothing of the clocks.
pub(crate) fn term(strict: bool, t: [i32; COEFFICIENTS]) -> Row {
    Row {
        strict,
        t,
        ..Row::default()
    }
}
