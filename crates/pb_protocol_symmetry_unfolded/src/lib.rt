//! The model to which a symmetric protocol is unfolded is symmetric, and so are the equations to
//! which it is translated. No code is here: the contract is a law.
#![tactic(auto)]

ghost use Rattle.pb_protocol_symmetry_unfolded.specs.Laws.{UnfoldedModelsAreSymmetric};
ghost use Rattle.pb_protocol_symmetry_unfolded.specs.Laws.{UnfoldedEquationsAreSymmetric};

use pb_model_symmetry::translations_are_symmetric;
use pb_protocol_symmetry::{
    permuted_states_are_states, satisfaction_is_permuted, successors_are_permuted,
};
use pb_protocol_unfolding::{formulas_are_unfolded, models_are_unfolded, steps_are_unfolded};

/// The unfolded model has the symmetries of the protocol, and the equations to which it is
/// translated have them.
pub fn unfolded_models_are_symmetric()
    ensures model { UnfoldedModelsAreSymmetric }
    ensures equations { UnfoldedEquationsAreSymmetric }
{
    permuted_states_are_states();
    satisfaction_is_permuted();
    successors_are_permuted();
    formulas_are_unfolded();
    models_are_unfolded();
    steps_are_unfolded();
    translations_are_symmetric();
}
