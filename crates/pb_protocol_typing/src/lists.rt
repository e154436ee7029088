//! The lists of variables of a protocol: its indices, parameters, own variables, those of
//! assignments, and those of its quantifiers. They are gathered first, so that a rule of lists is
//! looked at in one place.

ghost use Rattle.std.specs.Prelude.{◌≡◌, ◌++◌, [], flat_map, map, IfOk, MatchResult, OnOk};
ghost use Rattle.pb_text_tree.specs.Form.{argument_forms, term_form, variable_forms};
ghost use Rattle.pb_typing_declarations.specs.Declarations.{variables_faults};
ghost use Rattle.pb_typing_declarations.specs.Faults.{IsAmong};
ghost use Rattle.pb_typing_declarations.specs.View.{spec_of};
ghost use Rattle.pb_protocol_tree.specs.Form.{assignment_form, definition_form, formula_form};
ghost use Rattle.pb_protocol_tree.specs.Form.{property_form, protocol_form, step_form};
ghost use Rattle.pb_protocol_tree.specs.Form.{state_variables_form};
ghost use Rattle.pb_protocol_typing.specs.Faults.{lists_faults, names_hiding};
ghost use Rattle.pb_protocol_typing.specs.ListLinks.{operands_lists, links_lists};
ghost use Rattle.pb_protocol_typing.specs.ListLinks.{operations_lists};
ghost use Rattle.pb_protocol_typing.specs.Lists.{arguments_lists, assignment_lists, copied_lists};
ghost use Rattle.pb_protocol_typing.specs.Lists.{declared_lists, definition_lists, formula_lists};
ghost use Rattle.pb_protocol_typing.specs.Lists.{index_lists, own_lists, parameter_lists};
ghost use Rattle.pb_protocol_typing.specs.Lists.{property_lists, protocol_lists, step_lists};
ghost use Rattle.pb_protocol_typing.specs.Lists.{term_lists};
ghost use Rattle.pb_protocol_typing.specs.View.{list_forms, signatures_in};

use crate::names::check_hiding;
use crate::signature::Signature;
use pb_protocol_tree::{
    Assignment, Definition, Formula, Link, Property, Protocol, StateVariables, Step,
};
use pb_text_tree::{Argument, ArithmeticLink, Term, TermLink, Variables};
use pb_typing_declarations::{Declarations, TypeError};
use std::alloc::{AllocError, Global};
use std::collections::HashMap;

#[cycle(terms)]
fn push_term<'a>(lists: &mut Vec<&'a [Variables]>, term: &'a Term) -> Result<(), AllocError>
    ensures { OnOk result (list_forms lists.new.items
        ≡ list_forms lists.old.items ++ term_lists (term_form term.now)) }
{
    match term {
        Term::Constant { .. } | Term::Number { .. } | Term::Name(_) => Ok(()),
        Term::Not { operand, .. } | Term::Negative { operand, .. } => push_term(lists, operand),
        Term::Chain { first, links, .. } => {
            push_term(lists, first)?;
            push_links(lists, links)
        }
        Term::Comparison { left, right, .. } => {
            push_term(lists, left)?;
            push_term(lists, right)
        }
        Term::Arithmetic { first, links } => {
            push_term(lists, first)?;
            push_operations(lists, links)
        }
        Term::Application { arguments, .. } => push_arguments(lists, arguments),
        Term::Quantified {
            variables,
            body,
            ..
        } => {
            lists.push(variables.as_slice())?;
            push_term(lists, body)
        }
    }
}

#[cycle(terms)]
fn push_links<'a>(lists: &mut Vec<&'a [Variables]>, links: &'a [TermLink]) -> Result<(), AllocError>
    ensures { OnOk result (list_forms lists.new.items
        ≡ list_forms lists.old.items ++ links_lists links.now) }
{
    for link in links {
        push_term(lists, &link.operand)?;
    }
    Ok(())
}

#[cycle(terms)]
fn push_operations<'a>(
    lists: &mut Vec<&'a [Variables]>,
    links: &'a [ArithmeticLink],
) -> Result<(), AllocError>
    ensures { OnOk result (list_forms lists.new.items
        ≡ list_forms lists.old.items ++ operations_lists links.now) }
{
    for link in links {
        push_term(lists, &link.operand)?;
    }
    Ok(())
}

#[cycle(terms)]
fn push_arguments<'a>(
    lists: &mut Vec<&'a [Variables]>,
    arguments: &'a [Argument],
) -> Result<(), AllocError>
    ensures { OnOk result (list_forms lists.new.items
        ≡ list_forms lists.old.items ++ arguments_lists (argument_forms arguments.now)) }
{
    for argument in arguments {
        push_term(lists, &argument.term)?;
    }
    Ok(())
}

#[cycle(formulas)]
fn push_formula<'a>(
    lists: &mut Vec<&'a [Variables]>,
    formula: &'a Formula,
) -> Result<(), AllocError>
    ensures { OnOk result (list_forms lists.new.items
        ≡ list_forms lists.old.items ++ formula_lists (formula_form formula.now)) }
{
    match formula {
        Formula::Constant { .. } | Formula::Variable(_) => Ok(()),
        Formula::Data { term, .. } => push_term(lists, term),
        Formula::Negation { operand, .. } | Formula::Modal { operand, .. } => {
            push_formula(lists, operand)
        }
        Formula::Chain { first, links, .. } => {
            push_formula(lists, first)?;
            push_operands(lists, links)
        }
        Formula::Fixpoint { body, .. } => push_formula(lists, body),
        Formula::Quantified {
            variables,
            body,
            ..
        } => {
            lists.push(variables.as_slice())?;
            push_formula(lists, body)
        }
    }
}

#[cycle(formulas)]
fn push_operands<'a>(lists: &mut Vec<&'a [Variables]>, links: &'a [Link]) -> Result<(), AllocError>
    ensures { OnOk result (list_forms lists.new.items
        ≡ list_forms lists.old.items ++ operands_lists links.now) }
{
    for link in links {
        push_formula(lists, &link.operand)?;
    }
    Ok(())
}

fn push_indices<'a>(
    lists: &mut Vec<&'a [Variables]>,
    group: &'a StateVariables,
) -> Result<(), AllocError>
    ensures { OnOk result (list_forms lists.new.items
        ≡ list_forms lists.old.items ++ index_lists (state_variables_form group.now)) }
{
    for variable in &group.variables {
        lists.push(variable.indices.as_slice())?;
    }
    Ok(())
}

fn push_state<'a>(
    lists: &mut Vec<&'a [Variables]>,
    groups: &'a [StateVariables],
) -> Result<(), AllocError>
    ensures { OnOk result (list_forms lists.new.items ≡ list_forms lists.old.items
        ++ index_lists (flat_map state_variables_form groups.now)) }
{
    for group in groups {
        push_indices(lists, group)?;
    }
    Ok(())
}

fn push_definitions<'a>(
    lists: &mut Vec<&'a [Variables]>,
    definitions: &'a [Definition],
) -> Result<(), AllocError>
    ensures { OnOk result (list_forms lists.new.items ≡ list_forms lists.old.items
        ++ flat_map definition_lists (map definition_form definitions.now)) }
{
    for definition in definitions {
        lists.push(definition.parameters.as_slice())?;
        push_term(lists, &definition.term)?;
    }
    Ok(())
}

/// Adds the variables of a `forall` before an assignment.
fn push_copied<'a>(
    lists: &mut Vec<&'a [Variables]>,
    assignment: &'a Assignment,
) -> Result<(), AllocError>
    ensures { OnOk result (list_forms lists.new.items
        ≡ list_forms lists.old.items ++ copied_lists (assignment_form assignment.now)) }
{
    if let Some(copies) = &assignment.copies {
        lists.push(copies.variables.as_slice())?;
    }
    Ok(())
}

fn push_assignment<'a>(
    lists: &mut Vec<&'a [Variables]>,
    assignment: &'a Assignment,
) -> Result<(), AllocError>
    ensures { OnOk result (list_forms lists.new.items
        ≡ list_forms lists.old.items ++ assignment_lists (assignment_form assignment.now)) }
{
    push_copied(lists, assignment)?;
    push_arguments(lists, &assignment.index)?;
    push_term(lists, &assignment.value.term)
}

fn push_assignments<'a>(
    lists: &mut Vec<&'a [Variables]>,
    assignments: &'a [Assignment],
) -> Result<(), AllocError>
    ensures { OnOk result (list_forms lists.new.items ≡ list_forms lists.old.items
        ++ flat_map assignment_lists (map assignment_form assignments.now)) }
{
    for assignment in assignments {
        push_assignment(lists, assignment)?;
    }
    Ok(())
}

fn push_step<'a>(lists: &mut Vec<&'a [Variables]>, step: &'a Step) -> Result<(), AllocError>
    ensures { OnOk result (list_forms lists.new.items
        ≡ list_forms lists.old.items ++ step_lists (step_form step.now)) }
{
    lists.push(step.variables.as_slice())?;
    push_term(lists, &step.guard)?;
    push_assignments(lists, &step.assignments)
}

fn push_steps<'a>(lists: &mut Vec<&'a [Variables]>, steps: &'a [Step]) -> Result<(), AllocError>
    ensures { OnOk result (list_forms lists.new.items ≡ list_forms lists.old.items
        ++ flat_map step_lists (map step_form steps.now)) }
{
    for step in steps {
        push_step(lists, step)?;
    }
    Ok(())
}

fn push_properties<'a>(
    lists: &mut Vec<&'a [Variables]>,
    properties: &'a [Property],
) -> Result<(), AllocError>
    ensures { OnOk result (list_forms lists.new.items ≡ list_forms lists.old.items
        ++ flat_map property_lists (map property_form properties.now)) }
{
    for property in properties {
        push_formula(lists, &property.formula)?;
    }
    Ok(())
}

/// The lists of variables of a protocol, in order.
///
/// # Errors
/// Memory was refused.
pub fn all_lists(alloc: Global, protocol: &Protocol) -> Result<Vec<&'_ [Variables]>, AllocError>
    ensures { IfOk result (λ lists. list_forms lists.items
        ≡ protocol_lists (protocol_form protocol.now)) }
{
    let mut lists = Vec::new(alloc);
    push_state(&mut lists, &protocol.state)?;
    push_definitions(&mut lists, &protocol.definitions)?;
    push_steps(&mut lists, &protocol.steps)?;
    push_arguments(&mut lists, &protocol.initial.values)?;
    push_properties(&mut lists, &protocol.properties)?;
    Ok(lists)
}

fn push_parameters<'a>(
    lists: &mut Vec<&'a [Variables]>,
    definitions: &'a [Definition],
) -> Result<(), AllocError>
    ensures { OnOk result (list_forms lists.new.items ≡ list_forms lists.old.items
        ++ parameter_lists (map definition_form definitions.now)) }
{
    for definition in definitions {
        lists.push(definition.parameters.as_slice())?;
    }
    Ok(())
}

fn push_all_copied<'a>(
    lists: &mut Vec<&'a [Variables]>,
    assignments: &'a [Assignment],
) -> Result<(), AllocError>
    ensures { OnOk result (list_forms lists.new.items ≡ list_forms lists.old.items
        ++ flat_map copied_lists (map assignment_form assignments.now)) }
{
    for assignment in assignments {
        push_copied(lists, assignment)?;
    }
    Ok(())
}

fn push_declared<'a>(lists: &mut Vec<&'a [Variables]>, step: &'a Step) -> Result<(), AllocError>
    ensures { OnOk result (list_forms lists.new.items
        ≡ list_forms lists.old.items ++ own_lists (step_form step.now)) }
{
    lists.push(step.variables.as_slice())?;
    push_all_copied(lists, &step.assignments)
}

fn push_own<'a>(lists: &mut Vec<&'a [Variables]>, steps: &'a [Step]) -> Result<(), AllocError>
    ensures { OnOk result (list_forms lists.new.items
        ≡ list_forms lists.old.items ++ flat_map own_lists (map step_form steps.now)) }
{
    for step in steps {
        push_declared(lists, step)?;
    }
    Ok(())
}

/// The lists of indices, parameters, own variables and variables of assignments.
fn declared_lists(alloc: Global, protocol: &Protocol) -> Result<Vec<&'_ [Variables]>, AllocError>
    ensures { IfOk result (λ lists. list_forms lists.items
        ≡ declared_lists (protocol_form protocol.now)) }
{
    let mut lists = Vec::new(alloc);
    push_state(&mut lists, &protocol.state)?;
    push_parameters(&mut lists, &protocol.definitions)?;
    push_own(&mut lists, &protocol.steps)?;
    Ok(lists)
}

/// Checks that the names of each list are apart, and that its sorts have values.
fn check_each_list(
    alloc: Global,
    declarations: &Declarations<'_>,
    lists: &[&[Variables]],
) -> Result<(), TypeError>
    ensures { MatchResult result
        (λ _. flat_map (variables_faults (spec_of declarations.now)) (list_forms lists.now) ≡ [])
        (IsAmong (flat_map (variables_faults (spec_of declarations.now))
        (list_forms lists.now))) }
{
    for groups in lists {
        declarations.check_variables(alloc, groups)?;
    }
    Ok(())
}

/// Checks that the variables of each list may have their names.
fn check_each_hiding(
    alloc: Global,
    known: &HashMap<&'_ str, Signature>,
    lists: &[&[Variables]],
) -> Result<(), TypeError>
    ensures { MatchResult result
        (λ _. flat_map (names_hiding (signatures_in known.now)) (list_forms lists.now) ≡ [])
        (IsAmong (flat_map (names_hiding (signatures_in known.now)) (list_forms lists.now))) }
{
    for groups in lists {
        check_hiding(alloc, known, groups)?;
    }
    Ok(())
}

/// Checks the lists of variables of a protocol.
pub(crate) fn check_lists(
    alloc: Global,
    declarations: &Declarations<'_>,
    known: &HashMap<&'_ str, Signature>,
    protocol: &Protocol,
) -> Result<(), TypeError>
    ensures { MatchResult result
        (λ _. lists_faults (spec_of declarations.now) (signatures_in known.now)
        (protocol_form protocol.now) ≡ [])
        (IsAmong (lists_faults (spec_of declarations.now) (signatures_in known.now)
        (protocol_form protocol.now))) }
{
    let lists = all_lists(alloc, protocol)?;
    check_each_list(alloc, declarations, &lists)?;
    let declared = declared_lists(alloc, protocol)?;
    check_each_hiding(alloc, known, &declared)
}
