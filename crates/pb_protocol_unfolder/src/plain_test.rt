//! Whether a protocol is a flat model: without arrays, definitions, values in sets of steps, and
//! quantifiers in data and over formulas.

ghost use Rattle.std.specs.Prelude.{◌≡◌, map, flat_map};
ghost use Rattle.std.specs.List.{list_all};
ghost use Rattle.pb_text_tree.specs.Form.{argument_forms, variable_forms};
ghost use Rattle.pb_protocol_tree.specs.Form.{assignment_form, copies_said, definition_form};
ghost use Rattle.pb_protocol_tree.specs.Form.{formula_form, property_form, protocol_form};
ghost use Rattle.pb_protocol_tree.specs.Form.{state_variables_form, step_form, step_set_form};
ghost use Rattle.pb_protocol_unfolder.specs.Plain as plain;
ghost use Rattle.pb_protocol_unfolder.specs.View.{formula_operand, has_no_indices, is_plain_group};
ghost use Rattle.pb_protocol_unfolder.specs.View.{set_operand};

use crate::plain_term::{are_plain_arguments, is_plain_term};
use pb_protocol_tree::{
    Assignment, Copies, Definition, Formula, Link, Property, Protocol, StateVariable,
    StateVariables, Step, StepSet, StepSetLink,
};
use pb_text_tree::{Argument, Variables};

/// Whether no variable is declared.
pub(crate) fn declares_none(groups: &[Variables]) -> bool
    ensures { result ≡ plain.has_no_variables (variable_forms groups.now) }
{
    for group in groups {
        if !group.names.is_empty() {
            return false;
        }
    }
    true
}

/// Whether no state variable has an index.
fn are_plain_variables(variables: &[StateVariable]) -> bool
    ensures { result ≡ list_all has_no_indices variables.now }
{
    for variable in variables {
        if !declares_none(&variable.indices) {
            return false;
        }
    }
    true
}

/// Whether no state variable of groups has an index.
fn are_plain_groups(groups: &[StateVariables]) -> bool
    ensures { result ≡ list_all is_plain_group groups.now }
{
    for group in groups {
        if !are_plain_variables(&group.variables) {
            return false;
        }
    }
    true
}

/// Whether no state variable of a protocol has an index.
fn is_plain_state(groups: &[StateVariables]) -> bool
    ensures { result
        ≡ list_all plain.is_plain_variable (flat_map state_variables_form groups.now) }
{
    are_plain_groups(groups)
}

/// Whether there is no index.
fn has_no_index(index: &[Argument]) -> bool
    ensures { result ≡ plain.has_no_arguments (argument_forms index.now) }
{
    index.is_empty()
}

/// Whether no `forall` stands before an assignment.
fn has_no_copies(copies: &Option<Copies>) -> bool
    ensures { result ≡ plain.has_no_copies (copies_said copies.now) }
{
    match copies {
        Some(_) => false,
        None => true,
    }
}

/// Whether a plain variable is assigned a term without quantifiers, and once.
fn is_plain_assignment(assignment: &Assignment) -> bool
    ensures { result ≡ plain.is_plain_assignment (assignment_form assignment.now) }
{
    has_no_copies(&assignment.copies)
        && has_no_index(&assignment.index)
        && is_plain_term(&assignment.value.term)
}

/// Whether plain variables are assigned terms without quantifiers.
fn are_plain_assignments(assignments: &[Assignment]) -> bool
    ensures { result ≡ list_all plain.is_plain_assignment (map assignment_form assignments.now) }
{
    for assignment in assignments {
        if !is_plain_assignment(assignment) {
            return false;
        }
    }
    true
}

/// Whether a step has no quantifiers, and assigns plain variables.
fn is_plain_step(step: &Step) -> bool
    ensures { result ≡ plain.is_plain_step (step_form step.now) }
{
    is_plain_term(&step.guard) && are_plain_assignments(&step.assignments)
}

/// Whether steps have no quantifiers, and assign plain variables.
fn are_plain_steps(steps: &[Step]) -> bool
    ensures { result ≡ list_all plain.is_plain_step (map step_form steps.now) }
{
    for step in steps {
        if !is_plain_step(step) {
            return false;
        }
    }
    true
}

#[cycle(plain_sets)]
fn are_plain_sets(links: &[StepSetLink]) -> bool
    ensures { result ≡ list_all plain.is_plain_set (map set_operand links.now) }
{
    for link in links {
        if !is_plain_set(&link.operand) {
            return false;
        }
    }
    true
}

/// Whether a set names steps without values.
#[cycle(plain_sets)]
fn is_plain_set(set: &StepSet) -> bool
    ensures { result ≡ plain.is_plain_set (step_set_form set.now) }
{
    match set {
        StepSet::All { .. } | StepSet::Step(_) => true,
        StepSet::Instances { .. } => false,
        StepSet::Complement { operand, .. } => is_plain_set(operand),
        StepSet::Union { first, links } => {
            if !is_plain_set(first) {
                return false;
            }
            are_plain_sets(links)
        }
    }
}

#[cycle(plain_formulas)]
fn are_plain_formulas(links: &[Link]) -> bool
    ensures { result ≡ list_all plain.is_plain_formula (map formula_operand links.now) }
{
    for link in links {
        if !is_plain_formula(&link.operand) {
            return false;
        }
    }
    true
}

/// Whether a formula has no quantifiers, in its data neither, and no values in its sets of steps.
#[cycle(plain_formulas)]
fn is_plain_formula(formula: &Formula) -> bool
    ensures { result ≡ plain.is_plain_formula (formula_form formula.now) }
{
    match formula {
        Formula::Constant { .. } | Formula::Variable(_) => true,
        Formula::Data { term, .. } => is_plain_term(term),
        Formula::Negation { operand, .. } => is_plain_formula(operand),
        Formula::Chain { first, links, .. } => {
            if !is_plain_formula(first) {
                return false;
            }
            are_plain_formulas(links)
        }
        Formula::Modal { steps, operand, .. } => {
            if !is_plain_set(steps) {
                return false;
            }
            is_plain_formula(operand)
        }
        Formula::Fixpoint { body, .. } => is_plain_formula(body),
        Formula::Quantified { .. } => false,
    }
}

/// Whether formulas of properties are plain.
fn are_plain_properties(properties: &[Property]) -> bool
    ensures { result ≡ list_all plain.is_plain_property (map property_form properties.now) }
{
    for property in properties {
        if !is_plain_formula(&property.formula) {
            return false;
        }
    }
    true
}

/// Whether there is no definition.
fn has_no_definitions(definitions: &[Definition]) -> bool
    ensures { result ≡ plain.has_no_definitions (map definition_form definitions.now) }
{
    definitions.is_empty()
}

/// Whether nothing in a protocol is unfolded: no array, no definition, no value in a set of steps,
/// and no quantifier in data or over formulas.
pub fn is_plain(protocol: &Protocol) -> bool
    ensures { result ≡ plain.is_plain_protocol (protocol_form protocol.now) }
{
    is_plain_state(&protocol.state)
        && has_no_definitions(&protocol.definitions)
        && are_plain_steps(&protocol.steps)
        && are_plain_arguments(&protocol.initial.values)
        && are_plain_properties(&protocol.properties)
}
