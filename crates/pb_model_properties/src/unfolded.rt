//! The model to which a protocol is unfolded.

ghost use Rattle.std.specs.Prelude.{◌≡◌, false, IfOk};
ghost use Rattle.pb_base.specs.OrMemory.{IfRefused};
ghost use Rattle.pb_protocol_tree.specs.Form.{protocol_form};
ghost use Rattle.pb_protocol_unfolder.specs.Plain.{is_plain_protocol};
ghost use Rattle.pb_model_properties.specs.Refusals.{IsRefusedProtocol};
ghost use Rattle.pb_model_properties.specs.Solvable.{CanBeSolved};
ghost use Rattle.pb_model_properties.specs.Words.{IsToldModel};

use crate::fault::as_model_error;
use crate::flat::flat_solved;
use crate::laws::models_stand_for_protocols;
use crate::solved::{SolvedModel, ToldNames};
use crate::told::{names_of, places_of};
use pb_model_faults::ModelError;
use pb_protocol_tree::Protocol;
use pb_protocol_typing::check_protocol;
use pb_protocol_unfolder::unfold;
use std::alloc::Global;

/// The model that is solved in the place of a protocol that is unfolded.
pub(crate) fn unfolded_solved(alloc: Global, protocol: &Protocol) -> Result<SolvedModel, ModelError>
    requires unfolds { is_plain_protocol (protocol_form protocol.now) ≡ false }
    requires solvable { CanBeSolved (protocol_form protocol.now) }
    ensures model { IfOk result (IsToldModel (protocol_form protocol.now)) }
    ensures refused { IfRefused result (IsRefusedProtocol (protocol_form protocol.now)) }
{
    models_stand_for_protocols();
    match check_protocol(alloc, protocol) {
        Ok(()) => (),
        Err(error) => return Err(error.raise()),
    }
    let unfolded = match unfold(alloc, protocol) {
        Ok(unfolded) => unfolded,
        Err(error) => return Err(as_model_error(error)),
    };
    let origins = unfolded.steps;
    let steps = names_of(alloc, &origins)?;
    let places = places_of(alloc, &origins)?;
    let names = ToldNames {
        variables: unfolded.variables,
        steps,
        places,
        impossible: unfolded.impossible,
    };
    flat_solved(alloc, unfolded.model, Some(names))
}
