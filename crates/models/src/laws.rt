ghost use Rattle.models.specs.Laws.{RunLaws};

// Runs stay in the table and keep the invariants, and the shut model is never safe. The theorem is the contract; there is
// nothing to compute.
#[tactic(auto, using(crate::proofs::Runs::run_laws))]
pub(crate) fn runs_stand()
    ensures { RunLaws }
{}
