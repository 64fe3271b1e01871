ghost use Rattle.std.specs.Prelude.{◌≡◌, false, Decides};
ghost use Rattle.std.specs.List.{list_any, range_with_len};
ghost use Rattle.rows.specs.Points.{Setting};
ghost use Rattle.models.specs.Runs.{HasBad, AvoidsBad};

use crate::model::TimedModel;

// Whether one of the first locations, so many, is bad.
fn has_bad_below<M: TimedModel>(model: &M, locations: u8) -> bool
    ensures value { result ≡ list_any (M.table model.now).bad (range_with_len 0 locations) }
{
    (0..locations).any(|location| model.bad(location))
}

/// Whether the model has a bad location. If it has none, no run reaches one, at any setting.
#[tactic(auto, using(crate::proofs::Runs::bad_decides, crate::proofs::Runs::avoids_unless))]
pub fn has_bad_location<M: TimedModel>(model: &M) -> bool
    ensures decides { Decides result (HasBad (M.table model.now)) }
    ensures law { result ≡ false → (s : Setting) → AvoidsBad (M.table model.now) s }
{
    has_bad_below(model, model.shape().locations)
}
