//! The state variables of a flat model: one for each element.

ghost use Rattle.std.specs.Prelude.{◌≡◌, [], ◌∷◌, map, IfOk};
ghost use Rattle.pb_text_tree.specs.Form.{variable_forms};
ghost use Rattle.pb_text_meaning.specs.Erase.{erased_variables};
ghost use Rattle.pb_protocol_unfolding.specs.Unfolding as definitions;
ghost use Rattle.pb_protocol_unfolder_steps.specs.Elements.{flat_element};
ghost use Rattle.pb_protocol_unfolder_steps.specs.Groups.{group_said, groups_said};

use crate::element::Element;
use pb_protocol_unfolder_terms::element_name;
use pb_text_tree::{Variables, copy_name};
use std::alloc::{AllocError, Global};

/// The variable of an element: its name stands where the array's does, its sort where the array's
/// is named.
fn flat_variable(alloc: Global, element: &Element<'_>) -> Result<Variables, AllocError>
    ensures { IfOk result
        (λ v. group_said v ≡ definitions.variable_of (flat_element element.now) ∷ []) }
{
    let mut names = Vec::new(alloc);
    names.push(element_name(alloc, element.name, &element.index)?)?;
    let sort = copy_name(alloc, element.sort)?;
    Ok(Variables { names, sort })
}

/// The groups of the elements' variables.
fn flat_groups(alloc: Global, elements: &[Element<'_>]) -> Result<Vec<Variables>, AllocError>
    ensures { IfOk result
        (λ v. groups_said v.items ≡ map definitions.variable_of (map flat_element elements.now)) }
{
    let mut groups = Vec::new(alloc);
    for element in elements {
        groups.push(flat_variable(alloc, element)?)?;
    }
    Ok(groups)
}

/// The state variables of a flat model, one for each element. The name of each stands where the
/// array's name does.
///
/// # Errors
/// Memory was refused.
pub fn flat_state(alloc: Global, elements: &[Element<'_>]) -> Result<Vec<Variables>, AllocError>
    ensures { IfOk result (λ v. erased_variables (variable_forms v.items)
        ≡ map definitions.variable_of (map flat_element elements.now)) }
{
    flat_groups(alloc, elements)
}
