ghost use Rattle.std.specs.Prelude.{◌≡◌, ℕ, false, ◌&&◌, ◌||◌, ◌==◌, nat_le, slice_index_or};
ghost use Rattle.flat.specs.Lists.{uses_action};

use models::{ACTIONS, Edge, LARGEST_ACTION};

/// A set of actions: place x tells whether action x is in it.
#[derive(Clone, Copy, Debug)]
pub(crate) struct ActionSet {
    members: [bool; ACTIONS],
}

impl ActionSet {
    // Puts the action into the set, if it is from 1 to 15.
    fn add(&mut self, action: u8)
        ensures after { (x : ℕ) → slice_index_or self.new.members x false ≡ (slice_index_or self.old.members x false || ((nat_le 1 action && nat_le action 15) && action == x)) }
    {
        if (1..=LARGEST_ACTION).contains(&action) {
            self.members[usize::from(action)] = true;
        }
    }

    // The actions from 1 to 15 that the edges have.
    pub(crate) fn of(edges: &[Edge]) -> ActionSet
        ensures value { (x : ℕ) → slice_index_or result.members x false ≡ uses_action edges.now x }
    {
        let mut set = ActionSet {
            members: [false; ACTIONS],
        };
        for edge in edges {
            set.add(edge.action);
        }
        set
    }

    pub(crate) fn has(&self, action: u8) -> bool
        ensures value { result ≡ slice_index_or self.now.members action false }
    {
        self.members
            .get(usize::from(action))
            .copied()
            .unwrap_or(false)
    }
}
