//! A folded model has the symmetries of the model. No code is here: the contract is a law.
#![tactic(auto)]

ghost use Rattle.pb_protocol_symmetry_folded.specs.Laws.{FoldedModelsAreSymmetric};

use pb_protocol_folding::folding_keeps_models;

/// A symmetry of a model and a formula is one of the folded model and formula.
pub fn folded_models_are_symmetric()
    ensures { FoldedModelsAreSymmetric }
{
    folding_keeps_models();
}
