use crate::description::{AttachedRow, Description};
use arrayvec::ArrayVec;
use models::MAX_ROWS;
use rows::Row;
use std::alloc::{AllocError, Global};

/// The owners that there are, and the numbers that their rows have to be lawful for.
#[derive(Clone, Copy, Debug)]
pub(crate) struct Owners {
    count: usize,
    clocks: u8,
    parameters: u8,
}

impl Owners {
    ghost use Rattle.std.specs.Prelude.{◌≡◌, Decides};
    ghost use Rattle.flat.specs.Groups.{IsOwned, owners_in};

    // So many owners, of rows with the clocks and parameters of the lists.
    pub(crate) fn new(count: usize, lists: &Description) -> Owners
        ensures { result ≡ owners_in lists.now count }
    {
        Owners {
            count,
            clocks: lists.clocks,
            parameters: lists.parameters,
        }
    }

    // Whether the entry is a lawful row of one of the owners.
    fn admits(self, entry: &AttachedRow) -> bool
        ensures { Decides result (IsOwned self entry.now) }
    {
        usize::from(entry.owner) < self.count && entry.row.is_lawful(self.clocks, self.parameters)
    }
}

/// The rows of a list by their owner: those of owner q, in list order, are in group q.
#[derive(Debug, Drop)]
pub(crate) struct Groups {
    each: Vec<ArrayVec<Row, MAX_ROWS>>,
}

impl Groups {
    ghost use Rattle.std.specs.Prelude.{◌≡◌, ◌≤◌, ◌⊎◌, [], length, replicate, is_some, IfOk, All, Any, Decides};
    ghost use Rattle.std.specs.List.{slice_get};
    ghost use Rattle.flat.specs.Groups.{listed, group_at, IsOwned, HasRoom, Blank, Sorts, Adds};

    // `count` groups without rows.
    pub(crate) fn empty(heap: Global, count: usize) -> Result<Groups, AllocError>
        ensures made { IfOk result (λ gs. listed gs ≡ replicate count []) }
    {
        let each = vec![in heap; ArrayVec::new(); count]?;
        Ok(Groups { each })
    }

    // One entry more, in the group of its owner; none, and nothing changes, where the owners do not admit it, or its owner
    // has no group or no room in it.
    fn place(&mut self, owners: Owners, entry: &AttachedRow) -> Option<()>
        ensures decides { Decides (is_some result) (IsOwned owners entry.now × HasRoom self.old entry.now.owner) }
        ensures after { Adds (is_some result) entry.now.owner entry.now.row self.old self.new }
    {
        if !owners.admits(entry) {
            return None;
        }
        self.each
            .get_mut(usize::from(entry.owner))?
            .try_push(entry.row)
            .ok()
    }

    // The rows of the list in the groups of their owners; none where the owners do not admit one, or an owner has too many.
    // The groups are to have no rows before.
    pub(crate) fn filled(mut self, owners: Owners, entries: &[AttachedRow]) -> Option<Groups>
        ensures sorts { Blank owners.count self → Sorts owners entries.now result }
    {
        for entry in entries {
            self.place(owners, entry)?;
        }
        Some(self)
    }

    // The largest number of rows in a group. There are at most 8, so the casts here and below keep the number.
    pub(crate) fn most(&self) -> u8
        ensures bound { All (λ g. length g.items ≤ result) self.now.each.items }
        ensures attained { (result ≡ 0) ⊎ Any (λ g. length g.items ≡ result) self.now.each.items }
    {
        self.each
            .iter()
            .map(|group| group.len() as u8)
            .max()
            .unwrap_or(0)
    }

    pub(crate) fn count(&self, owner: u16) -> u8
        ensures value { result ≡ length (group_at self.now owner) }
    {
        self.each
            .get(usize::from(owner))
            .map_or(0, |group| group.len() as u8)
    }

    pub(crate) fn row(&self, owner: u16, k: u8) -> Option<Row>
        ensures value { result ≡ slice_get (group_at self.now owner) k }
    {
        self.each
            .get(usize::from(owner))?
            .get(usize::from(k))
            .copied()
    }
}
