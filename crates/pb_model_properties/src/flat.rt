//! From a flat model to the one that is solved: itself, or packed where it has more variables than
//! a text has parameters.

ghost use Rattle.std.specs.Prelude.{IfOk};
ghost use Rattle.pb_base.specs.OrMemory.{IfRefused};
ghost use Rattle.pb_model_tree.specs.Form.{model_form};
ghost use Rattle.pb_model_properties.specs.Refusals.{IsRefusedFlat};
ghost use Rattle.pb_model_properties.specs.Words.{IsSolvedFlat};

use crate::count::is_flat_state_large;
use crate::laws::models_stand_for_protocols;
use crate::solved::{SolvedModel, ToldNames, UnpackedModel};
use crate::told::told_error;
use pb_model_faults::ModelError;
use pb_model_tree::Model;
use pb_model_typing::check_model;
use pb_protocol_groups::pack_checked;
use std::alloc::Global;

/// The model that is solved in the place of a protocol that this flat one is for, told by these
/// names: the flat one, packed where it has too many variables.
pub(crate) fn flat_solved(
    alloc: Global,
    model: Model,
    names: Option<ToldNames>,
) -> Result<SolvedModel, ModelError>
    ensures model { IfOk result (IsSolvedFlat (model_form model) names) }
    ensures refused { IfRefused result (IsRefusedFlat (model_form model) names) }
{
    models_stand_for_protocols();
    if !is_flat_state_large(alloc, &model.state)? {
        return match check_model(alloc, model) {
            Ok(typed) => Ok(SolvedModel {
                typed,
                names,
                unpacked: None,
            }),
            Err((_model, error)) => Err(told_error(&names, error)),
        };
    }
    let packed = match pack_checked(alloc, &model) {
        Ok(packed) => packed,
        Err(error) => return Err(told_error(&names, error)),
    };
    let groups = packed.groups;
    match check_model(alloc, packed.model) {
        Ok(typed) => Ok(SolvedModel {
            typed,
            names,
            unpacked: Some(UnpackedModel { model, groups }),
        }),
        Err((_model, error)) => Err(told_error(&names, error)),
    }
}
