use models::TimedModel;
use report::Formula;
use rows::{Row, WAITED};

// Prints what a model is, in sentences.
#[derive(Drop)]
pub(crate) struct Report<'a, R, M> {
    pub(crate) rt: &'a R,
    pub(crate) model: &'a M,
}

impl<R: Print, M: TimedModel> Report<'_, R, M> {
    // So many rows by their number, each behind the word for what it is.
    fn rows<F: Fn(u8) -> Option<Row>>(&self, word: &str, count: u8, row: F) -> anyhow::Result<()>
        requires { F.IsAlwaysCallable row }
    {
        for row in (0..count).filter_map(row) {
            let formula = Formula { row };
            println!(self.rt; "  {word}: {formula}")?;
        }
        Ok(())
    }

    fn location(&self, location: u8) -> anyhow::Result<()> {
        let mark = if self.model.bad(location) {
            "bad"
        } else {
            "good"
        };
        println!(self.rt; "Location {location} is {mark}.")?;
        let count = self.model.invariant_count(location);
        self.rows(
            "invariant",
            count,
            |k| self.model.invariant_row(location, k),
        )
    }

    fn slot(&self, slot: u16) -> anyhow::Result<()> {
        let Some(edge) = self.model.edge(slot) else {
            return Ok(());
        };
        println!(self.rt;
            "Edge {slot} with action {} leads from location {} to location {}.",
            edge.action, edge.source, edge.target
        )?;
        let count = self.model.guard_count(slot);
        self.rows("guard", count, |k| self.model.guard_row(slot, k))?;
        // the clocks are the marks from 1 up to that of the time waited
        for clock in (1..WAITED).filter(|&clock| edge.resets.has(clock)) {
            println!(self.rt; "  resets clock {clock}")?;
        }
        Ok(())
    }

    // The locations with their invariants, and the edges with their guards. A model is asked by number.
    pub(crate) fn all(&self) -> anyhow::Result<()> {
        let shape = self.model.shape();
        for location in 0..shape.locations {
            self.location(location)?;
        }
        for slot in 0..shape.slots {
            self.slot(slot)?;
        }
        Ok(())
    }
}
