//! The names of elements and of steps with their values, which are apart, and of definitions, none
//! of which is an enumerator's.

ghost use Rattle.std.specs.Prelude.{◌≡◌, map, IfOk, OnOk};
ghost use Rattle.pb_base.specs.OrMemory.{IfRefused};
ghost use Rattle.pb_protocol_folding.specs.Names.{AreDistinct, AreNot, enumerators_in};
ghost use Rattle.pb_protocol_unfolding.specs.Unfolding as definitions;
ghost use Rattle.pb_protocol_unfolder_steps.specs.Elements.{flat_element, instance_said};
ghost use Rattle.pb_protocol_unfolder_steps.specs.Refusals.{element_place, instance_place};
ghost use Rattle.pb_protocol_unfolder.specs.Apart.{declarations_said, definition_bytes};
ghost use Rattle.pb_protocol_unfolder.specs.Apart.{definition_place, name_bytes};
ghost use Rattle.pb_protocol_unfolder.specs.Parts.{IsFaultOfDefinitions, IsFaultOfElements};
ghost use Rattle.pb_protocol_unfolder.specs.Parts.{IsFaultOfInstances};

use crate::apart::{first_repeated, first_taken};
use crate::fault::{UnfoldingError, UnfoldingRule, refused};
use pb_protocol_tree::Definition;
use pb_protocol_unfolder_steps::{Element, Instance, element_names, instance_name};
use pb_text_tree::{Name, SortDeclaration, copy_name};
use std::alloc::{AllocError, Global};

/// The names of steps with their values in a flat model.
fn instance_names(alloc: Global, instances: &[Instance<'_>]) -> Result<Vec<Name>, AllocError>
    ensures { IfOk result (λ v. map name_bytes v.items
        ≡ map definitions.instance_name (map instance_said instances.now)) }
{
    let mut names = Vec::new(alloc);
    for instance in instances {
        names.push(instance_name(alloc, instance)?)?;
    }
    Ok(names)
}

/// The names of definitions.
fn names_defined(alloc: Global, defined: &[Definition]) -> Result<Vec<Name>, AllocError>
    ensures { IfOk result (λ v. map name_bytes v.items ≡ map definition_bytes defined.now) }
{
    let mut names = Vec::new(alloc);
    for definition in defined {
        names.push(copy_name(alloc, &definition.name)?)?;
    }
    Ok(names)
}

/// Checks that the names of elements are apart, and that none is an enumerator's; else the first
/// that is one in front of it, or an enumerator's, is refused.
pub(crate) fn check_elements(
    alloc: Global,
    declarations: &[SortDeclaration],
    elements: &[Element<'_>],
) -> Result<(), UnfoldingError>
    ensures distinct { OnOk result
        (AreDistinct (map definitions.name_of (map flat_element elements.now))) }
    ensures untaken { OnOk result (AreNot (enumerators_in (declarations_said declarations.now))
        (map definitions.name_of (map flat_element elements.now))) }
    ensures refused { IfRefused result
        (IsFaultOfElements (enumerators_in (declarations_said declarations.now))
        (map definitions.name_of (map flat_element elements.now))
        (map element_place elements.now)) }
{
    let names = element_names(alloc, elements)?;
    let repeated = first_repeated(alloc, &names)?;
    if let Some(index) = repeated {
        return Err(refused(UnfoldingRule::Names, elements[index].name.place));
    }
    if let Some(index) = first_taken(declarations, &names) {
        return Err(refused(UnfoldingRule::Names, elements[index].name.place));
    }
    Ok(())
}

/// Checks that the names of steps with their values are apart; else the first that is one in front
/// of it is refused.
pub(crate) fn check_instances(
    alloc: Global,
    instances: &[Instance<'_>],
) -> Result<(), UnfoldingError>
    ensures distinct { OnOk result
        (AreDistinct (map definitions.instance_name (map instance_said instances.now))) }
    ensures refused { IfRefused result
        (IsFaultOfInstances (map definitions.instance_name (map instance_said instances.now))
        (map instance_place instances.now)) }
{
    let names = instance_names(alloc, instances)?;
    let repeated = first_repeated(alloc, &names)?;
    if let Some(index) = repeated {
        return Err(refused(UnfoldingRule::Names, instances[index].step.name.place));
    }
    Ok(())
}

/// Checks that no definition has an enumerator's name; else the first that has one is refused.
pub(crate) fn check_definitions(
    alloc: Global,
    declarations: &[SortDeclaration],
    defined: &[Definition],
) -> Result<(), UnfoldingError>
    ensures untaken { OnOk result (AreNot (enumerators_in (declarations_said declarations.now))
        (map definition_bytes defined.now)) }
    ensures refused { IfRefused result
        (IsFaultOfDefinitions (enumerators_in (declarations_said declarations.now))
        (map definition_bytes defined.now) (map definition_place defined.now)) }
{
    let names = names_defined(alloc, defined)?;
    if let Some(index) = first_taken(declarations, &names) {
        return Err(refused(UnfoldingRule::Names, defined[index].name.place));
    }
    Ok(())
}
