use rows::{Row, Valuation};
use std::fmt;

// An editor renews within p1, and a silent editor keeps the drawing for p2: p2 has to be the longer.
pub(crate) const TERM: Row = Row {
    i: 0,
    j: 0,
    strict: true,
    t: [0, -1, 1, 0, 0, 0, 0],
};

const PARAMETERS: u8 = 2;

// How a setting stands to the term.
#[derive(Clone, Copy, Debug, PartialEq, Eq, Hash)]
pub(crate) enum Standing {
    OutsideLimits,
    Met,
    NotMet,
}

impl Standing {
    pub(crate) fn of(valuation: &Valuation) -> Standing {
        if !valuation.is_in_range(PARAMETERS) {
            Standing::OutsideLimits
        } else if TERM.is_met(valuation) {
            Standing::Met
        } else {
            Standing::NotMet
        }
    }
}

// The end of a sentence about the setting.
impl fmt::Display for Standing {
    fn fmt<W: fmt::Write>(&self, f: &mut fmt::Formatter<W>) -> fmt::Result {
        f.write_str(match self {
            Standing::OutsideLimits => "is outside the limits",
            Standing::Met => "meets the term",
            Standing::NotMet => "does not meet the term",
        })
    }
}
