//! State variables and steps of protocols, as those of flat models. Indices are left out:
//! `specs/Plain.antt` says where there are none.

ghost use Rattle.std.specs.Prelude.{◌≡◌, map, IfOk};
ghost use Rattle.pb_text_tree.specs.Form.{named, variables_form};
ghost use Rattle.pb_model_tree.specs.Form as flat;
ghost use Rattle.pb_protocol_tree.specs.Form.{assignment_form, state_variables_form, step_form};
ghost use Rattle.pb_protocol_unfolder.specs.Plain.{flat_assignment, flat_step_form, flat_variable};
ghost use Rattle.pb_protocol_unfolder.specs.View.{variable_name};

use pb_model_tree as flat;
use pb_protocol_tree::{Assignment, StateVariable, StateVariables, Step};
use pb_text_tree::{Name, Variables};
use std::alloc::{AllocError, Global};

/// The names of state variables.
fn flat_names(alloc: Global, variables: Vec<StateVariable>) -> Result<Vec<Name>, AllocError>
    ensures { IfOk result (λ v. map named v.items ≡ map variable_name variables.items) }
{
    let mut names = Vec::new(alloc);
    for variable in variables {
        names.push(variable.name)?;
    }
    Ok(names)
}

/// State variables of one sort, each without its indices.
pub(crate) fn flat_variables(alloc: Global, group: StateVariables) -> Result<Variables, AllocError>
    ensures { IfOk result
        (λ v. variables_form v ≡ map flat_variable (state_variables_form group)) }
{
    let names = flat_names(alloc, group.variables)?;
    Ok(Variables {
        names,
        sort: group.sort,
    })
}

/// Assignments, each without its index.
fn flat_assignments(
    alloc: Global,
    assignments: Vec<Assignment>,
) -> Result<Vec<flat::Assignment>, AllocError>
    ensures { IfOk result (λ v. map flat.assignment_form v.items
        ≡ map flat_assignment (map assignment_form assignments.items)) }
{
    let mut flat_assignments = Vec::new(alloc);
    for assignment in assignments {
        flat_assignments.push(flat::Assignment {
            variable: assignment.variable,
            value: assignment.value,
        })?;
    }
    Ok(flat_assignments)
}

/// A step of named variables.
pub(crate) fn flat_step(alloc: Global, step: Step) -> Result<flat::Step, AllocError>
    ensures { IfOk result (λ a. flat.step_form a ≡ flat_step_form (step_form step)) }
{
    let assignments = flat_assignments(alloc, step.assignments)?;
    Ok(flat::Step {
        name: step.name,
        variables: step.variables,
        guard: step.guard,
        assignments,
    })
}
