//! Where the variables and steps of a flat model come from, as users are told.

ghost use Rattle.std.specs.Prelude.{◌≡◌, map, IfOk, string_bytes};
ghost use Rattle.pb_protocol_unfolder_steps.specs.Elements.{flat_element, instance_said};
ghost use Rattle.pb_protocol_unfolder_steps.specs.Refusals.{instance_place};
ghost use Rattle.pb_protocol_unfolder.specs.Origins.{origin_name, origin_place};
ghost use Rattle.pb_protocol_unfolder.specs.Told.{told_element, told_instance};

use crate::told::told_name;
use pb_protocol_unfolder_steps::{Element, Instance};
use pb_text_tree::Place;
use std::alloc::{AllocError, Global};

/// The name by which users are told of a step of a flat model, `grant(c1,c2)`, and where the step's
/// name stands in the protocol.
#[derive(Drop)]
pub struct StepOrigin {
    pub name: String,
    pub place: Place,
}

/// The name by which users are told of an element.
fn told_element(alloc: Global, element: &Element<'_>) -> Result<String, AllocError>
    ensures { IfOk result (λ text. string_bytes text ≡ told_element (flat_element element.now)) }
{
    told_name(alloc, element.name.text.as_str(), &element.index)
}

/// The names by which users are told of elements.
pub(crate) fn told_elements(
    alloc: Global,
    elements: &[Element<'_>],
) -> Result<Vec<String>, AllocError>
    ensures { IfOk result (λ v. map string_bytes v.items
        ≡ map told_element (map flat_element elements.now)) }
{
    let mut names = Vec::new(alloc);
    for element in elements {
        names.push(told_element(alloc, element)?)?;
    }
    Ok(names)
}

/// Where the flat step of a step with its values comes from.
fn step_origin(alloc: Global, instance: &Instance<'_>) -> Result<StepOrigin, AllocError>
    ensures name { IfOk result
        (λ origin. origin_name origin ≡ told_instance (instance_said instance.now)) }
    ensures place { IfOk result (λ origin. origin_place origin ≡ instance_place instance.now) }
{
    let name = told_name(alloc, instance.step.name.text.as_str(), &instance.own)?;
    let place = instance.step.name.place;
    Ok(StepOrigin { name, place })
}

/// Where the flat steps of steps with their values come from.
pub(crate) fn step_origins(
    alloc: Global,
    instances: &[Instance<'_>],
) -> Result<Vec<StepOrigin>, AllocError>
    ensures names { IfOk result (λ v. map origin_name v.items
        ≡ map told_instance (map instance_said instances.now)) }
    ensures places { IfOk result
        (λ v. map origin_place v.items ≡ map instance_place instances.now) }
{
    let mut origins = Vec::new(alloc);
    for instance in instances {
        origins.push(step_origin(alloc, instance)?)?;
    }
    Ok(origins)
}
