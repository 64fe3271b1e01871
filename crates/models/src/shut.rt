ghost use Rattle.models.specs.Shut.{shut_table};
ghost use Rattle.std.proofs.Common.{rules};

use crate::edge::Edge;
use crate::model::TimedModel;
use crate::shape::Shape;
use rows::Row;

/// The shut model: one location, which is bad, and nothing else. Its bad location is reached at every setting, so it takes
/// the place of a model that cannot be made.
#[derive(Clone, Copy, Debug, PartialEq, Eq, Hash)]
pub struct Shut;

impl TimedModel for Shut {
    ghost table = { λ _. shut_table };

    ghost limits = { Prim.search rules };

    fn shape(&self) -> Shape {
        Shape {
            clocks: 0,
            parameters: 0,
            locations: 1,
            first: 0,
            slots: 0,
            invariants: 0,
            guards: 0,
        }
    }

    fn uses(&self, _action: u8) -> bool {
        false
    }

    fn bad(&self, location: u8) -> bool {
        location == 0
    }

    fn invariant_count(&self, _location: u8) -> u8 {
        0
    }

    fn invariant_row(&self, _location: u8, _k: u8) -> Option<Row> {
        None
    }

    fn edge(&self, _slot: u16) -> Option<Edge> {
        None
    }

    fn guard_count(&self, _slot: u16) -> u8 {
        0
    }

    fn guard_row(&self, _slot: u16, _k: u8) -> Option<Row> {
        None
    }
}
