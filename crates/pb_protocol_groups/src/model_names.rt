//! The names in a model: those of variables, sorts, enumerators and fixpoints.

ghost use Rattle.std.specs.Prelude.{◌≡◌, ◌++◌, flat_map, IfOk, OnOk};
ghost use Rattle.pb_model_meaning.specs.Erase.{model_of};
ghost use Rattle.pb_protocol_packing.specs.Groups as packing;
ghost use Rattle.pb_protocol_packer.specs.Declarations.{declaration_of, declarations_in};
ghost use Rattle.pb_protocol_packer.specs.Initial.{names_by};
ghost use Rattle.pb_protocol_packer.specs.Properties.{properties_in, erased_step_list};
ghost use Rattle.pb_protocol_packer.specs.Steps.{assignments_in, step_of};
ghost use Rattle.pb_protocol_groups.specs.Names.{assignment_names, names_of_enumerators};
ghost use Rattle.pb_protocol_groups.specs.Names.{names_in_property};

use crate::formula_names::push_formula;
use crate::term_names::{push_arguments, push_term, push_variables};
use pb_model_tree::{Assignment, Model, Property, Step};
use pb_text_tree::{Enumerator, Name, Sort, SortDeclaration};
use std::alloc::{AllocError, Global};

fn push_enumerators<'a>(
    names: &mut Vec<&'a Name>,
    enumerators: &'a [Enumerator],
) -> Result<(), AllocError>
    ensures { OnOk result (names_by names.new.items
        ≡ names_by names.old.items ++ names_of_enumerators enumerators.now) }
{
    for enumerator in enumerators {
        names.push(&enumerator.name)?;
    }
    Ok(())
}

fn push_sort<'a>(
    names: &mut Vec<&'a Name>,
    declaration: &'a SortDeclaration,
) -> Result<(), AllocError>
    ensures { OnOk result (names_by names.new.items
        ≡ names_by names.old.items ++ packing.sort_names (declaration_of declaration.now)) }
{
    names.push(&declaration.name)?;
    match &declaration.sort {
        Sort::Struct(enumerators) => push_enumerators(names, enumerators),
        Sort::Alias(target) => Ok(names.push(target)?),
    }
}

fn push_sorts<'a>(names: &mut Vec<&'a Name>, sorts: &'a [SortDeclaration]) -> Result<(), AllocError>
    ensures { OnOk result (names_by names.new.items
        ≡ names_by names.old.items ++ flat_map packing.sort_names (declarations_in sorts.now)) }
{
    for declaration in sorts {
        push_sort(names, declaration)?;
    }
    Ok(())
}

fn push_assignments<'a>(
    names: &mut Vec<&'a Name>,
    assignments: &'a [Assignment],
) -> Result<(), AllocError>
    ensures { OnOk result (names_by names.new.items ≡ names_by names.old.items
        ++ flat_map assignment_names (assignments_in assignments.now)) }
{
    for assignment in assignments {
        push_term(names, &assignment.value.term)?;
    }
    Ok(())
}

fn push_step<'a>(names: &mut Vec<&'a Name>, step: &'a Step) -> Result<(), AllocError>
    ensures { OnOk result (names_by names.new.items
        ≡ names_by names.old.items ++ packing.step_names (step_of step.now)) }
{
    push_variables(names, &step.variables)?;
    push_term(names, &step.guard)?;
    push_assignments(names, &step.assignments)
}

fn push_steps<'a>(names: &mut Vec<&'a Name>, steps: &'a [Step]) -> Result<(), AllocError>
    ensures { OnOk result (names_by names.new.items
        ≡ names_by names.old.items ++ flat_map packing.step_names (erased_step_list steps.now)) }
{
    for step in steps {
        push_step(names, step)?;
    }
    Ok(())
}

fn push_properties<'a>(
    names: &mut Vec<&'a Name>,
    properties: &'a [Property],
) -> Result<(), AllocError>
    ensures { OnOk result (names_by names.new.items
        ≡ names_by names.old.items ++ flat_map names_in_property (properties_in properties.now)) }
{
    for property in properties {
        push_formula(names, &property.formula)?;
    }
    Ok(())
}

/// The names of variables, sorts, enumerators and fixpoints in a model and in the formulas of its
/// properties.
pub(crate) fn names_in(alloc: Global, model: &Model) -> Result<Vec<&Name>, AllocError>
    ensures { IfOk result (λ v. names_by v.items ≡ packing.names_in (model_of model.now)) }
{
    let mut names = Vec::new(alloc);
    push_variables(&mut names, &model.state)?;
    push_sorts(&mut names, &model.sorts)?;
    push_steps(&mut names, &model.steps)?;
    push_arguments(&mut names, &model.initial.values)?;
    push_properties(&mut names, &model.properties)?;
    Ok(names)
}
