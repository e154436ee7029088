//! Steps and properties of a packed model, in order.

ghost use Rattle.std.specs.Prelude.{◌≡◌, map, [], IfOk};
ghost use Rattle.pb_protocol_packing.specs.Packing.{packed_step, with_groups};
ghost use Rattle.pb_protocol_packer.specs.Groups.{groups_in};
ghost use Rattle.pb_protocol_packer.specs.Scopes.{table_of};
ghost use Rattle.pb_protocol_packer.specs.Properties.{property_name, property_names, property_of};
ghost use Rattle.pb_protocol_packer.specs.Properties.{property_said, property_shape, property_shapes};
ghost use Rattle.pb_protocol_packer.specs.Properties.{properties_in, names_of_steps, erased_step_list};

use crate::formula::formula_said;
use crate::group::Group;
use crate::scope::Packing;
use crate::step::packed_step;
use pb_model_tree::{Property, Step};
use pb_text_tree::copy_name;
use std::alloc::AllocError;

/// The steps of the packed model.
pub(crate) fn packed_steps(
    packing: &Packing<'_>,
    groups: &[Group],
    steps: &[Step],
) -> Result<Vec<Step>, AllocError>
    requires { table_of packing.now.table.now ≡ with_groups (groups_in groups.now) [] }
    ensures meaning { IfOk result
        (λ v. erased_step_list v.items
        ≡ map (packed_step (groups_in groups.now)) (erased_step_list steps.now)) }
    ensures names { IfOk result (λ v. names_of_steps v.items ≡ names_of_steps steps.now) }
{
    let mut packed = Vec::with_capacity(packing.alloc, steps.len())?;
    for step in steps {
        packed.push(packed_step(packing, groups, step)?)?;
    }
    Ok(packed)
}

/// A property of the packed model.
fn packed_property(packing: &Packing<'_>, property: &Property) -> Result<Property, AllocError>
    ensures meaning { IfOk result (λ p. property_of p
        ≡ property_said (table_of packing.now.table.now) (property_of property.now)) }
    ensures name { IfOk result (λ p. property_name p ≡ property_name property.now) }
    ensures shape { IfOk result (λ p. property_shape p ≡ property_shape property.now) }
{
    let name = copy_name(packing.alloc, &property.name)?;
    let formula = formula_said(packing, &property.formula)?;
    Ok(Property { name, formula })
}

/// The properties of the packed model.
pub(crate) fn packed_properties(
    packing: &Packing<'_>,
    properties: &[Property],
) -> Result<Vec<Property>, AllocError>
    ensures meaning { IfOk result (λ v. properties_in v.items
        ≡ map (property_said (table_of packing.now.table.now)) (properties_in properties.now)) }
    ensures names { IfOk result (λ v. property_names v.items ≡ property_names properties.now) }
    ensures shapes { IfOk result (λ v. property_shapes v.items ≡ property_shapes properties.now) }
{
    let mut packed = Vec::with_capacity(packing.alloc, properties.len())?;
    for property in properties {
        packed.push(packed_property(packing, property)?)?;
    }
    Ok(packed)
}
