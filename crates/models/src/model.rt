ghost use Rattle.std.specs.Prelude.{◌≡◌, length};
ghost use Rattle.std.specs.List.{slice_get};
ghost use Rattle.models.specs.Tables.{Table, Limits};

use crate::edge::Edge;
use crate::shape::Shape;
use rows::Row;

/// What every model answers, from its table. Locations, slots and rows count from 0. Where one is asked for that is not in
/// the table, the answer is 0, no, or nothing.
pub trait TimedModel {
    /// The table that the model means.
    ghost table: { Self → Table };

    /// How many clocks, parameters, locations and slots there are, the first location, and the two row figures.
    fn shape(&self) -> Shape
        ensures value { result ≡ (table self.now).shape };

    /// Whether the action is one of those that the model uses: in a pair, the other side takes such an action, unless it is
    /// 0, only together with the model.
    fn uses(&self, action: u8) -> bool
        ensures value { result ≡ (table self.now).uses action };

    /// Whether the location is bad.
    fn bad(&self, location: u8) -> bool
        ensures value { result ≡ (table self.now).bad location };

    /// How many invariant rows the location has.
    fn invariant_count(&self, location: u8) -> u8
        ensures value { result ≡ length ((table self.now).invariant location) };

    /// Invariant row number k of the location.
    fn invariant_row(&self, location: u8, k: u8) -> Option<Row>
        ensures value { result ≡ slice_get ((table self.now).invariant location) k };

    /// The edge in the slot, if the slot is filled.
    fn edge(&self, slot: u16) -> Option<Edge>
        ensures value { result ≡ (table self.now).edge slot };

    /// How many guard rows the edge in the slot has.
    fn guard_count(&self, slot: u16) -> u8
        ensures value { result ≡ length ((table self.now).guard slot) };

    /// Guard row number k of the edge in the slot.
    fn guard_row(&self, slot: u16, k: u8) -> Option<Row>
        ensures value { result ≡ slice_get ((table self.now).guard slot) k };

    /// The table keeps the limits of models.
    ghost limits: { (x : Self) → Limits (table x) };
}
