ghost use Rattle.std.specs.Prelude.{◌≡◌, true, false, Decides, option_copied};
ghost use Rattle.models.specs.Shut.{shut_table};
ghost use Rattle.flat.specs.Lists.{table_of};
ghost use Rattle.flat.specs.WellFormed.{WellFormed, is_well_formed, flat_table};
ghost use Rattle.flat.specs.Indexes.{Indexes};
ghost use Rattle.flat.specs.declared.description.Description.{Description};
ghost use Rattle.flat.specs.WellFormedLemmas.{flat_limits};

use crate::description::Description;
use crate::index::Index;
use crate::room::Room;
use models::{Edge, Shape, Shut, TimedModel};
use rows::Row;
use std::marker::Model;

/// A model made from four lists. If they are not well-formed, it answers as the shut model.
#[derive(Debug, Drop)]
pub struct Flat {
    lists: Description,
    index: Option<Index>,
}

/// A flat model is seen as its lists.
impl Model for Flat {
    ghost Value = { Description };

    ghost view = { λ f. f.lists };

    ghost invariant = { λ f. Indexes f.lists f.index };
}

impl Flat {
    /// The flat model on the lists: its table is the one that they describe if they are well-formed, else that of the shut
    /// model. Lists are well-formed when the numbers are within the limits of models, no location or edge has more than 8
    /// rows, every row is lawful, and no location, edge or clock is named that is not there.
    #[tactic(auto, using(crate::specs::WellFormedLemmas::well_formed))]
    pub fn new(room: Room, lists: Description) -> Flat
        ensures value { result ≡ lists }
        ensures described { WellFormed lists → flat_table result ≡ table_of lists }
        ensures shut { (WellFormed lists → ⊥) → flat_table result ≡ shut_table }
    {
        let index = Index::new(room, &lists);
        Flat { lists, index }
    }

    /// Gives the lists back as they were given, for instance to mend them.
    pub fn into_lists(self) -> Description
        ensures value { result ≡ self }
    {
        let Flat { lists, index: _ } = self;
        lists
    }

    // What answers: the index, or none where the lists are not well-formed and the model is the shut one.
    fn index(&self) -> Option<&Index>
        ensures { Indexes self.now (option_copied result) }
    {
        self.index.as_ref()
    }

    /// Whether the lists are well-formed. If so, the model is the one that they describe, else it is the shut model.
    #[tactic(auto, using(crate::specs::WellFormedLemmas::well_formed))]
    pub fn is_well_formed(&self) -> bool
        ensures value { result ≡ is_well_formed self.now }
        ensures decides { Decides result (WellFormed self.now) }
        ensures described { result ≡ true → flat_table self.now ≡ table_of self.now }
        ensures shut { result ≡ false → flat_table self.now ≡ shut_table }
    {
        self.index().is_some()
    }
}

impl TimedModel for Flat {
    ghost table = { flat_table };

    ghost limits = { flat_limits };

    fn shape(&self) -> Shape {
        self.index().map_or(Shut.shape(), |index| index.shape)
    }

    fn uses(&self, action: u8) -> bool {
        self.index()
            .map_or(Shut.uses(action), |index| index.actions.has(action))
    }

    fn bad(&self, location: u8) -> bool {
        self.index()
            .map_or(Shut.bad(location), |_| self.lists.is_bad(location))
    }

    fn invariant_count(&self, location: u8) -> u8 {
        self.index()
            .map_or(Shut.invariant_count(location), |index| {
                index.invariants.count(u16::from(location))
            })
    }

    fn invariant_row(&self, location: u8, k: u8) -> Option<Row> {
        self.index()
            .map_or(Shut.invariant_row(location, k), |index| {
                index.invariants.row(u16::from(location), k)
            })
    }

    fn edge(&self, slot: u16) -> Option<Edge> {
        self.index()
            .map_or(Shut.edge(slot), |_| self.lists.edge(slot))
    }

    fn guard_count(&self, slot: u16) -> u8 {
        self.index()
            .map_or(Shut.guard_count(slot), |index| index.guards.count(slot))
    }

    fn guard_row(&self, slot: u16, k: u8) -> Option<Row> {
        self.index()
            .map_or(Shut.guard_row(slot, k), |index| index.guards.row(slot, k))
    }
}
