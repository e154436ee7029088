//! A packed model, and the groups that its variables are.

ghost use Rattle.std.specs.Prelude.{◌≡◌, [], Contains, IfOk, OnOk};
ghost use Rattle.pb_model_tree.specs.Form.{model_form};
ghost use Rattle.pb_model_meaning.specs.Erase.{model_of};
ghost use Rattle.pb_model_runs.specs.Exact.{step_places};
ghost use Rattle.pb_protocol_packing.specs.Groups as packing;
ghost use Rattle.pb_protocol_packing.specs.Packable.{IsPackable};
ghost use Rattle.pb_protocol_packer.specs.Groups.{groups_in};
ghost use Rattle.pb_protocol_packer.specs.InitialPlaces.{initial_places, value_places};
ghost use Rattle.pb_protocol_groups.specs.Places.{named_properties, property_places};
ghost use Rattle.pb_protocol_groups.specs.Checks.{packing_faults};
ghost use Rattle.pb_protocol_groups.specs.Sizes.{size_faults};
ghost use Rattle.pb_base.specs.OrMemory.{IfRefused};

use crate::checks::check_packable;
use crate::grouping::groups_of;
use pb_model_tree::Model;
use pb_protocol_packer::{Group, packed_by};
use pb_typing_declarations::TypeError;
use std::alloc::Global;

/// A packed model, with the groups of the model's state variables that its variables are.
#[derive(Drop)]
pub struct Packed {
    pub model: Model,
    pub groups: Vec<Group>,
}

/// Packs a model after a check that it can be packed, so that it satisfies what the model does: its
/// state variables are put together in at most eight groups. The names of steps and properties, and
/// formulas but for their data, stay as they are, places included; the initial value of a group
/// stands at one of its variables' values.
///
/// # Errors
/// Those of `check_packable`. The variables of a group have no values together, or too many: T12,
/// at `init`. Or memory was refused.
pub fn pack_checked(alloc: Global, model: &Model) -> Result<Packed, TypeError>
    ensures packable { OnOk result (IsPackable (model_of model.now)) }
    ensures groups { IfOk result
        (λ p. groups_in p.groups.items ≡ packing.groups_of (model_of model.now)) }
    ensures meaning { IfOk result (λ p. model_of p.model ≡ packing.packed (model_of model.now)) }
    ensures initial { IfOk result (λ p. value_places (model_form p.model).initial.values
        ≡ initial_places (packing.groups_of (model_of model.now)) (model_form model.now)) }
    ensures steps { IfOk result
        (λ p. step_places (model_form p.model).steps ≡ step_places (model_form model.now).steps) }
    ensures names { IfOk result
        (λ p. named_properties (model_form p.model) ≡ named_properties (model_form model.now)) }
    ensures places { IfOk result
        (λ p. property_places (model_form p.model) ≡ property_places (model_form model.now)) }
    ensures few { OnOk result (size_faults (model_form model.now) ≡ []) }
    ensures accepted { OnOk result (packing_faults (model_form model.now) ≡ []) }
    ensures refused { IfRefused result (Contains (packing_faults (model_form model.now))) }
{
    check_packable(alloc, model)?;
    let groups = groups_of(alloc, model)?;
    let model = packed_by(alloc, model, &groups)?;
    Ok(Packed { model, groups })
}
