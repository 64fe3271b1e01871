ghost use Rattle.std.specs.Prelude.{All, Decides};
ghost use Rattle.models.specs.Tables.{ShapeLimits, EdgeLimits};

use crate::actions::ActionSet;
use crate::description::Description;
use crate::groups::{Groups, Owners};
use crate::room::Room;
use models::{Edge, MAX_LOCATIONS, MAX_SLOTS, Shape};

/// What well-formed lists say, so that no answer needs a walk over a list.
#[derive(Debug, Drop)]
pub(crate) struct Index {
    pub(crate) shape: Shape,
    pub(crate) invariants: Groups,
    pub(crate) guards: Groups,
    pub(crate) actions: ActionSet,
}

impl Index {
    ghost use Rattle.flat.specs.Indexes.{Indexes};

    // The index of the lists, or none where they are not well-formed.
    pub(crate) fn new(room: Room, lists: &Description) -> Option<Index>
        ensures { Indexes lists.now result }
    {
        let locations = u8::try_from(lists.locations.len())
            .ok()
            .filter(|n| *n <= MAX_LOCATIONS)?;
        let slots = u16::try_from(lists.edges.len())
            .ok()
            .filter(|n| *n <= MAX_SLOTS)?;
        let Room { invariants, guards } = room;
        let invariants = invariants.filled(
            Owners::new(locations.into(), lists),
            &lists.invariants,
        )?;
        let guards = guards.filled(Owners::new(slots.into(), lists), &lists.guards)?;
        let shape = Shape {
            clocks: lists.clocks,
            parameters: lists.parameters,
            locations,
            first: lists.first,
            slots,
            invariants: invariants.most(),
            guards: guards.most(),
        };
        fits(&shape, &lists.edges).then_some(Index {
            shape,
            invariants,
            guards,
            actions: ActionSet::of(&lists.edges),
        })
    }
}

// Whether the numbers are within their limits and the edges are such as a model with these numbers may have.
fn fits(shape: &Shape, edges: &[Edge]) -> bool
    ensures { Decides result (ShapeLimits shape.now × All (EdgeLimits shape.now) edges.now) }
{
    shape.is_within_limits() && edges.iter().all(|edge| shape.admits(edge))
}
