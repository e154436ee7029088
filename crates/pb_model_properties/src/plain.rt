//! The model of a plain protocol.

ghost use Rattle.std.specs.Prelude.{◌≡◌, true, IfOk};
ghost use Rattle.pb_base.specs.OrMemory.{IfRefused};
ghost use Rattle.pb_protocol_tree.specs.Form.{protocol_form};
ghost use Rattle.pb_protocol_unfolder.specs.Plain.{is_plain_protocol};
ghost use Rattle.pb_model_properties.specs.Refusals.{IsRefusedProtocol};
ghost use Rattle.pb_model_properties.specs.Solvable.{CanBeSolved};
ghost use Rattle.pb_model_properties.specs.Words.{IsToldModel};

use crate::count::is_state_large;
use crate::flat::flat_solved;
use crate::laws::models_stand_for_protocols;
use crate::solved::SolvedModel;
use pb_model_faults::ModelError;
use pb_model_typing::check_model;
use pb_protocol_tree::Protocol;
use pb_protocol_typing::check_protocol;
use pb_protocol_unfolder::plain_model;
use std::alloc::Global;

/// The model that is solved in a plain protocol's place: its own, or that one packed where it has
/// too many variables. What the check of its own model accepts keeps the rules of plain models.
pub(crate) fn plain_solved(alloc: Global, protocol: Protocol) -> Result<SolvedModel, ModelError>
    requires plain { is_plain_protocol (protocol_form protocol) ≡ true }
    requires solvable { CanBeSolved (protocol_form protocol) }
    ensures model { IfOk result (IsToldModel (protocol_form protocol)) }
    ensures refused { IfRefused result (IsRefusedProtocol (protocol_form protocol)) }
{
    models_stand_for_protocols();
    if is_state_large(alloc, &protocol.state)? {
        match check_protocol(alloc, &protocol) {
            Ok(()) => (),
            Err(error) => return Err(error.raise()),
        }
        let model = plain_model(alloc, protocol)?;
        return flat_solved(alloc, model, None);
    }
    let model = plain_model(alloc, protocol)?;
    match check_model(alloc, model) {
        Ok(typed) => Ok(SolvedModel {
            typed,
            names: None,
            unpacked: None,
        }),
        Err((_model, error)) => Err(error.raise()),
    }
}
