ghost use Rattle.flat.specs.Laws.{ListLaws};

// Which actions are used, and that the figures are the largest counts. The theorem is the contract; there is nothing to
// compute.
#[tactic(auto, using(crate::specs::ListsLemmas::list_laws))]
pub(crate) fn lists_stand()
    ensures { ListLaws }
{}
