//! Which steps are the same where elements are permuted.

ghost use Rattle.std.specs.Prelude.{◌≡◌, map, IfOk};
ghost use Rattle.std.specs.List.{list_all};
ghost use Rattle.pb_text_tree.specs.Form.{variable_forms};
ghost use Rattle.pb_protocol_tree.specs.Form.{assignment_form, copied_variables, copies_said};
ghost use Rattle.pb_protocol_tree.specs.Form.{step_form};
ghost use Rattle.pb_protocol_meaning.specs.Erase.{erased_assignment, erased_step};
ghost use Rattle.pb_protocol_symmetry.specs.ProtocolTest.{are_indices};
ghost use Rattle.pb_protocol_symmetry.specs.Steps.{is_hidden, is_index, is_name};
ghost use Rattle.pb_protocol_scalar_sets.specs.Steps.{assignment_fits, may_assign, step_fits};
ghost use Rattle.pb_protocol_scalar_sets.specs.Terms.{term_said, terms_said};
ghost use Rattle.pb_protocol_scalar_sets.specs.View.{scope_of, signature_said, variable_said};

use crate::kind::{is_kind, is_plain};
use crate::scope::Around;
use crate::signature::Signature;
use crate::term::{Context, are_for, kind_in};
use crate::variable::{Variable, variables_of};
use pb_protocol_tree::{Assignment, Step};
use pb_text_tree::{Argument, Term, Variables};
use std::alloc::{AllocError, Global};

/// Whether a term is this name.
fn is_name(name: &str, term: &Term) -> bool
    ensures { result ≡ is_name name.now (term_said term.now) }
{
    match term {
        Term::Name(other) => other.text.as_str() == name,
        Term::Chain { first, links, .. } => match links.first() {
            Some(_) => false,
            None => is_name(name, first),
        },
        Term::Arithmetic { first, links } => match links.first() {
            Some(_) => false,
            None => is_name(name, first),
        },
        Term::Constant { .. }
        | Term::Number { .. }
        | Term::Not { .. }
        | Term::Negative { .. }
        | Term::Comparison { .. }
        | Term::Application { .. }
        | Term::Quantified { .. } => false,
    }
}

/// Whether a variable is by itself one of the indices of the sort.
fn is_index(sort: &str, name: &str, parameters: &[Variable<'_>], index: &[Argument]) -> bool
    ensures { result ≡ is_index sort.now name.now (map variable_said parameters.now)
        (terms_said index.now) }
{
    for (place, parameter) in parameters.iter().enumerate() {
        match index.get(place) {
            Some(argument) => {
                if parameter.sort == sort && is_name(name, &argument.term) {
                    return true;
                }
            }
            None => return false,
        }
    }
    false
}

/// Whether one of these variables has the name.
fn is_hidden(name: &str, variables: &[Variable<'_>]) -> bool
    ensures { result ≡ is_hidden name.now (map variable_said variables.now) }
{
    for variable in variables {
        if variable.name == name {
            return true;
        }
    }
    false
}

/// Whether each of these variables that is of the sort is one of the indices of the sort, so that
/// copies of an assignment for different elements assign at different indices.
fn are_indices(
    sort: &str,
    parameters: &[Variable<'_>],
    index: &[Argument],
    variables: &[Variable<'_>],
) -> bool
    ensures { result ≡ are_indices sort.now (map variable_said parameters.now)
        (terms_said index.now) (map variable_said variables.now) }
{
    for (place, variable) in variables.iter().enumerate() {
        if variable.sort == sort {
            let is_hidden = is_hidden(variable.name, &variables[place + 1..]);
            if is_hidden || !is_index(sort, variable.name, parameters, index) {
                return false;
            }
        }
    }
    true
}

/// The variables of the `forall` before an assignment.
fn copied(assignment: &Assignment) -> &[Variables]
    ensures { variable_forms result.now ≡ copied_variables (copies_said assignment.now.copies) }
{
    match &assignment.copies {
        Some(copies) => &copies.variables,
        None => &[],
    }
}

/// Whether an assignment may assign to a state variable: not if it is one of that name to which it
/// assigns something else. Its own variables are in scope.
fn may_assign<'a>(
    context: &Context<'_>,
    around: &'a Around<'a>,
    own: &[Variable<'_>],
    assignment: &'a Assignment,
    target: &Signature<'_>,
) -> bool
    ensures { result ≡ may_assign context.now (scope_of around.now) (map variable_said own.now)
        (erased_assignment (assignment_form assignment.now)) (signature_said target.now) }
{
    if assignment.variable.text.as_str() != target.name {
        return true;
    }
    let Some(kind) = target.kind else {
        return false;
    };
    let parameters = &target.parameters;
    are_for(context, around, parameters, &assignment.index)
        && is_kind(kind, kind_in(context, around, &assignment.value.term))
        && are_indices(context.set.sort, parameters, &assignment.index, own)
}

/// Whether an assignment is the same where elements are permuted.
fn assignment_fits<'a>(
    alloc: Global,
    context: &Context<'_>,
    around: &'a Around<'a>,
    assignment: &'a Assignment,
) -> Result<bool, AllocError>
    ensures { IfOk result (λ b. b ≡ assignment_fits context.now (scope_of around.now)
        (erased_assignment (assignment_form assignment.now))) }
{
    let copied = copied(assignment);
    let own = variables_of(alloc, copied)?;
    let inner = Around::Variables(copied, around);
    for target in context.known.state {
        if !may_assign(context, &inner, &own, assignment, target) {
            return Ok(false);
        }
    }
    Ok(true)
}

/// Whether a step is the same where elements are permuted.
fn step_fits(alloc: Global, context: &Context<'_>, step: &Step) -> Result<bool, AllocError>
    ensures { IfOk result (λ b. b ≡ step_fits context.now (erased_step (step_form step.now))) }
{
    let outermost = Around::Outermost;
    let around = Around::Variables(&step.variables, &outermost);
    if !is_plain(kind_in(context, &around, &step.guard)) {
        return Ok(false);
    }
    for assignment in &step.assignments {
        if !assignment_fits(alloc, context, &around, assignment)? {
            return Ok(false);
        }
    }
    Ok(true)
}

/// Whether all these steps are.
///
/// # Errors
/// Memory was refused.
pub(crate) fn steps_fit(
    alloc: Global,
    context: &Context<'_>,
    steps: &[Step],
) -> Result<bool, AllocError>
    ensures { IfOk result (λ b. b
        ≡ list_all (step_fits context.now) (map erased_step (map step_form steps.now))) }
{
    for step in steps {
        if !step_fits(alloc, context, step)? {
            return Ok(false);
        }
    }
    Ok(true)
}
