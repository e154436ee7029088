//! The names of all variables of a model: its own, those of steps and those of quantifiers.

ghost use Rattle.std.specs.Prelude.{◌≡◌, ◌++◌, flat_map, map, IfOk, OnOk};
ghost use Rattle.pb_model_tree.specs.Form.{assignment_form, model_form, property_form, step_form};
ghost use Rattle.pb_protocol_typing.specs.View.{names_in};
ghost use Rattle.pb_protocol_groups.specs.Bound.{assigned_bound_names, model_bound_names};
ghost use Rattle.pb_protocol_groups.specs.Bound.{property_bound_names, step_bound_names};

use crate::bound_formulas::push_formula;
use crate::bound_terms::{push_arguments, push_names, push_term};
use pb_model_tree::{Assignment, Model, Property, Step};
use pb_text_tree::Name;
use std::alloc::{AllocError, Global};

fn push_assignments<'a>(
    names: &mut Vec<&'a Name>,
    assignments: &'a [Assignment],
) -> Result<(), AllocError>
    ensures { OnOk result (names_in names.new.items ≡ names_in names.old.items
        ++ flat_map assigned_bound_names (map assignment_form assignments.now)) }
{
    for assignment in assignments {
        push_term(names, &assignment.value.term)?;
    }
    Ok(())
}

fn push_step<'a>(names: &mut Vec<&'a Name>, step: &'a Step) -> Result<(), AllocError>
    ensures { OnOk result (names_in names.new.items
        ≡ names_in names.old.items ++ step_bound_names (step_form step.now)) }
{
    push_names(names, &step.variables)?;
    push_term(names, &step.guard)?;
    push_assignments(names, &step.assignments)
}

fn push_steps<'a>(names: &mut Vec<&'a Name>, steps: &'a [Step]) -> Result<(), AllocError>
    ensures { OnOk result (names_in names.new.items
        ≡ names_in names.old.items ++ flat_map step_bound_names (map step_form steps.now)) }
{
    for step in steps {
        push_step(names, step)?;
    }
    Ok(())
}

fn push_properties<'a>(
    names: &mut Vec<&'a Name>,
    properties: &'a [Property],
) -> Result<(), AllocError>
    ensures { OnOk result (names_in names.new.items ≡ names_in names.old.items
        ++ flat_map property_bound_names (map property_form properties.now)) }
{
    for property in properties {
        push_formula(names, &property.formula)?;
    }
    Ok(())
}

/// The names of all variables of a model.
pub(crate) fn bound_names(alloc: Global, model: &Model) -> Result<Vec<&Name>, AllocError>
    ensures { IfOk result (λ v. names_in v.items ≡ model_bound_names (model_form model.now)) }
{
    let mut names = Vec::new(alloc);
    push_names(&mut names, &model.state)?;
    push_steps(&mut names, &model.steps)?;
    push_arguments(&mut names, &model.initial.values)?;
    push_properties(&mut names, &model.properties)?;
    Ok(names)
}
