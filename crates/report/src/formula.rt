ghost use Rattle.std.specs.Iterator.{IsFinite};

use rows::{COEFFICIENTS, Row};
use std::fmt;

// A coefficient with its unit, the scale k or a parameter p1 to p6; a coefficient of 1 is left out.
fn write_product<W: fmt::Write>(f: &mut fmt::Formatter<W>, size: u32, c: usize) -> fmt::Result {
    if size != 1 {
        write!(f, "{size}")?;
    }
    if c == 0 {
        f.write_str("k")
    } else {
        write!(f, "p{c}")
    }
}

// These coefficients with their units, each behind what stands before that of its number.
fn write_terms<'a, W: fmt::Write, I: Iterator<Item = (usize, i32)>, F: Fn(usize) -> &'a str>(
    f: &mut fmt::Formatter<W>,
    terms: I,
    before: F,
) -> fmt::Result
    requires can { I.can_next terms }
    requires ends { IsFinite (I.remaining terms) }
    requires signs { F.IsAlwaysCallable before }
{
    for (c, z) in terms {
        f.write_str(before(c))?;
        write_product(f, z.unsigned_abs(), c)?;
    }
    Ok(())
}

// The right side: what is added, or 0, and then what is taken away.
fn write_bound<W: fmt::Write>(f: &mut fmt::Formatter<W>, t: &[i32; COEFFICIENTS]) -> fmt::Result {
    let first = t.iter().position(|z| *z > 0);
    if first.is_none() {
        f.write_str("0")?;
    }
    let added = t.iter().copied().enumerate().filter(|&(_, z)| z > 0);
    write_terms(f, added, |c| if first == Some(c) { "" } else { " + " })?;
    let taken = t.iter().copied().enumerate().filter(|&(_, z)| z < 0);
    write_terms(f, taken, |_| " - ")
}

/// A row as a formula: `x1 - x0 <= 3k + p1`, or `0 < p2 - p1` where its marks are equal.
#[derive(Clone, Copy, Debug, PartialEq, Eq, Hash)]
pub struct Formula {
    pub row: Row,
}

impl fmt::Display for Formula {
    fn fmt<W: fmt::Write>(&self, f: &mut fmt::Formatter<W>) -> fmt::Result {
        let Row { i, j, strict, t } = self.row;
        if i == j {
            f.write_str("0")?;
        } else {
            write!(f, "x{i} - x{j}")?;
        }
        f.write_str(if strict { " < " } else { " <= " })?;
        write_bound(f, &t)
    }
}
