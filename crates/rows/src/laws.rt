ghost use Rattle.rows.specs.Forcing.{ForcingLaws};

// Forcing is monotone in the rows and transitive. The theorem is the contract; there is nothing to compute.
#[tactic(auto, using(crate::proofs::Forcing::forcing_laws))]
pub(crate) fn forcing_stands()
    ensures { ForcingLaws }
{}
