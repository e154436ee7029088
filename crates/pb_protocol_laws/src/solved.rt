//! The model that is solved in a protocol's place: what it has to do with the protocol, in
//! `specs/`, and laws that say which models do.

ghost use Rattle.pb_protocol_laws.specs.SolvedLaws.{PackedModelsAreSolved, PlainModelsAreSolved};
ghost use Rattle.pb_protocol_laws.specs.SolvedLaws.{MovesAreTheProtocols, UnfoldedModelsAreSolved};

use pb_protocol_packing::packed_models_have_the_answer;
use pb_protocol_unfolding::{flat_models_do_the_same, plain_models_keep_their_meaning};

/// A plain protocol's own model is solved in its place, and so is the model to which a protocol is
/// unfolded.
pub fn flat_models_are_solved()
    ensures plain { PlainModelsAreSolved }
    ensures unfolded { UnfoldedModelsAreSolved }
{
    plain_models_keep_their_meaning();
    flat_models_do_the_same();
}

/// Where a model may be solved in a protocol's place, so may the model with its variables packed.
pub fn packed_models_are_solved()
    ensures { PackedModelsAreSolved }
{
    packed_models_have_the_answer();
}

/// Where a model that is solved in a protocol's place goes from a state, the protocol goes from the
/// state that it says.
pub fn moves_are_the_protocols()
    ensures { MovesAreTheProtocols }
{}
