//! The rules of definitions, steps and initial values.

ghost use Rattle.std.specs.Prelude.{◌≡◌, ◌==◌, None, Some, map, MatchResult, length};
ghost use Rattle.std.specs.List.{slice_get};
ghost use Rattle.pb_base.specs.OrMemory.{IfFault};
ghost use Rattle.pb_text_tree.specs.Form.{argument_forms, term_form};
ghost use Rattle.pb_typing_declarations.specs.View.{spec_of};
ghost use Rattle.pb_model_tree.specs.Form.{initial_form};
ghost use Rattle.pb_protocol_tree.specs.Form.{assignment_form, copies_form, definition_form};
ghost use Rattle.pb_protocol_tree.specs.Form.{step_form};
ghost use Rattle.pb_protocol_typing.specs.Signatures.{definition_scope, definition_signature};
ghost use Rattle.pb_protocol_typing.specs.Signatures.{value_written, with_definitions};
ghost use Rattle.pb_protocol_typing.specs.Fault.{first_fault};
ghost use Rattle.pb_protocol_typing.specs.Steps.{again_fault, assigned_fault, assigned_in_fault};
ghost use Rattle.pb_protocol_typing.specs.Steps.{assignment_by, assignment_fault, count};
ghost use Rattle.pb_protocol_typing.specs.Steps.{definitions_fault, element_fault, own_fault};
ghost use Rattle.pb_protocol_typing.specs.Steps.{element_value_fault, elements_fault};
ghost use Rattle.pb_protocol_typing.specs.Steps.{initial_fault, step_fault, twice_fault};
ghost use Rattle.pb_protocol_typing.specs.Terms.{kinds, term_fault};
ghost use Rattle.pb_protocol_typing.specs.View.{scope_of, signature_of, state_entry_form};
ghost use Rattle.pb_protocol_typing.specs.View.{signatures_in, state_forms, written_of};

use crate::around::Around;
use crate::copies::copies_fault;
use crate::index::are_same;
use crate::kind::sort_kind;
use crate::reading::reads_state;
use crate::scope::{Naming, Scope};
use crate::signature::{Signature, StateEntry, insert, variable_carriers};
use crate::term::{arguments_fault, condition_fault, fault_unless, term_fault, value_fault};
use crate::term_kind::kind_of;
use crate::written::{Written, as_written};
use crate::written_as::WrittenAs;
use pb_model_tree::InitialState;
use pb_protocol_tree::{Assignment, Copies, Definition, Step};
use pb_text_tree::Argument;
use pb_typing_declarations::{Declarations, TypeError, TypingFault, TypingRule};
use std::alloc::Global;
use std::collections::HashMap;

/// The most assignments that a step may have. Each is looked at beside those before it.
pub const MAX_ASSIGNMENTS: usize = 1024;

/// How a term is written that is written out, or a definition that it names.
fn value_written(known: &HashMap<&'_ str, Signature>, value: Written<'_>) -> WrittenAs
    ensures { result ≡ value_written (signatures_in known.now) (written_of value.entry) }
{
    match value {
        Written::Boolean(_) => WrittenAs::OfKind,
        Written::Number(is_negative, size) => WrittenAs::Number(is_negative, size),
        Written::Alone(name) => match known.get(name.text.as_str()) {
            Some(signature) => signature.written,
            None => WrittenAs::OfKind,
        },
        Written::Other => WrittenAs::Calculated,
    }
}

/// What a definition is as those behind it name it, if its term is as it must be.
fn check_definition<'d>(
    alloc: Global,
    declarations: &Declarations<'_>,
    known: &HashMap<&'d str, Signature>,
    definition: &Definition,
) -> Result<Signature, TypeError>
    ensures { MatchResult result
        (λ signature. (term_fault (definition_scope (spec_of declarations.now)
        (signatures_in known.now) (definition_form definition.now))
        (definition_form definition.now).term ≡ None)
        × (signature_of signature ≡ definition_signature (spec_of declarations.now)
        (signatures_in known.now) (definition_form definition.now)))
        (λ error. IfFault error (λ fault. term_fault (definition_scope (spec_of declarations.now)
        (signatures_in known.now) (definition_form definition.now))
        (definition_form definition.now).term ≡ Some fault)) }
{
    let outermost = Around::Outermost;
    let around = Around::Variables(&definition.parameters, &outermost);
    let scope = Scope {
        declarations,
        signatures: known,
        naming: Naming::All,
        around: &around,
    };
    if let Some(fault) = term_fault(&scope, &definition.term) {
        return Err(TypeError::Refused(fault));
    }
    let kind = kind_of(&scope, &definition.term);
    let reads_state = reads_state(&scope, &definition.term);
    let written = value_written(known, as_written(&definition.term));
    let parameters = variable_carriers(alloc, declarations, &definition.parameters)?;
    Ok(Signature {
        is_state: false,
        reads_state,
        parameters,
        kind,
        written,
    })
}

/// Adds the definitions to the state variables, each checked where those before it may be named.
pub(crate) fn check_definitions<'d>(
    alloc: Global,
    declarations: &Declarations<'_>,
    known: &mut HashMap<&'d str, Signature>,
    definitions: &'d [Definition],
) -> Result<(), TypeError>
    ensures { MatchResult result
        (λ _. (definitions_fault (spec_of declarations.now) (signatures_in known.old)
        (map definition_form definitions.now) ≡ None)
        × (signatures_in known.new ≡ with_definitions (spec_of declarations.now)
        (signatures_in known.old) (map definition_form definitions.now)))
        (λ error. IfFault error (λ fault. definitions_fault (spec_of declarations.now)
        (signatures_in known.old) (map definition_form definitions.now) ≡ Some fault)) }
{
    for definition in definitions {
        let signature = check_definition(alloc, declarations, known, definition)?;
        insert(known, &definition.name, signature)?;
    }
    Ok(())
}

/// Whether there are as many indices as there are parameters.
fn has_indices(scope: &Scope<'_, '_>, signature: &Signature, index: &[Argument]) -> bool
    ensures { result ≡ (length (kinds (scope_of scope.now) (argument_forms index.now))
        == length (signature_of signature.now).parameters) }
{
    let _scope = scope;
    index.len() == signature.parameters.len()
}

/// What is assigned to a state variable of this signature.
fn element_fault<'a>(
    scope: &Scope<'a, '_>,
    signature: &Signature,
    assignment: &'a Assignment,
) -> Option<TypingFault>
    ensures { result ≡ element_fault (scope_of scope.now) (signature_of signature.now)
        (assignment_form assignment.now) }
{
    let place = assignment.variable.place;
    let is_count = has_indices(scope, signature, &assignment.index);
    if let Some(fault) = fault_unless(is_count, TypingRule::WrongCount, place) {
        return Some(fault);
    }
    if let Some(fault) = arguments_fault(scope, &signature.parameters, &assignment.index) {
        return Some(fault);
    }
    value_fault(scope, signature.kind, &assignment.value)
}

/// What is assigned is a state variable (T01).
fn assigned_fault<'a>(
    scope: &Scope<'a, '_>,
    signature: &Signature,
    assignment: &'a Assignment,
) -> Option<TypingFault>
    ensures { result ≡ assigned_fault (scope_of scope.now)
        (Some (signature_of signature.now)) (assignment_form assignment.now) }
{
    let place = assignment.variable.place;
    let is_state = signature.is_state;
    if let Some(fault) = fault_unless(is_state, TypingRule::UnknownName, place) {
        return Some(fault);
    }
    element_fault(scope, signature, assignment)
}

/// The first fault of an assignment in the scope of its variables.
fn assigned_in_fault<'a>(scope: &Scope<'a, '_>, assignment: &'a Assignment) -> Option<TypingFault>
    ensures { result ≡ assigned_in_fault (scope_of scope.now) (assignment_form assignment.now) }
{
    let name = &assignment.variable;
    match scope.signature(name.text.as_str()) {
        None => Some(TypingFault {
            rule: TypingRule::UnknownName,
            place: name.place,
        }),
        Some(signature) => assigned_fault(scope, signature, assignment),
    }
}

/// The first fault of an assignment for all values of variables.
fn copied_fault<'a>(
    scope: &Scope<'a, '_>,
    copies: &'a Copies,
    assignment: &'a Assignment,
) -> Option<TypingFault>
    ensures { result ≡ assignment_by (scope_of scope.now) (Some (copies_form copies.now))
        (assignment_form assignment.now) }
{
    if let Some(fault) = copies_fault(scope, &assignment.index, &copies.variables) {
        return Some(fault);
    }
    let around = Around::Variables(&copies.variables, scope.around);
    let inner = Scope {
        declarations: scope.declarations,
        signatures: scope.signatures,
        naming: scope.naming,
        around: &around,
    };
    assigned_in_fault(&inner, assignment)
}

/// The first fault of an assignment.
fn assignment_fault<'a>(scope: &Scope<'a, '_>, assignment: &'a Assignment) -> Option<TypingFault>
    ensures { result ≡ assignment_fault (scope_of scope.now) (assignment_form assignment.now) }
{
    match &assignment.copies {
        None => assigned_in_fault(scope, assignment),
        Some(copies) => copied_fault(scope, copies, assignment),
    }
}

fn assignments_fault<'a>(
    scope: &Scope<'a, '_>,
    assignments: &'a [Assignment],
) -> Option<TypingFault>
    ensures { result ≡ first_fault (assignment_fault (scope_of scope.now))
        (map assignment_form assignments.now) }
{
    for assignment in assignments {
        if let Some(fault) = assignment_fault(scope, assignment) {
            return Some(fault);
        }
    }
    None
}

/// Whether two assignments are plainly to one element; the fault (T02) stands at the later one.
fn again_fault(earlier: &Assignment, later: &Assignment) -> Option<TypingFault>
    ensures { result ≡ again_fault (assignment_form earlier.now) (assignment_form later.now) }
{
    let is_name = earlier.variable.text.as_str() == later.variable.text.as_str();
    let is_again = is_name && are_same(&earlier.index, &later.index);
    let place = later.variable.place;
    fault_unless(!is_again, TypingRule::NameTwice, place)
}

fn assigned_again(earlier: &Assignment, others: &[Assignment]) -> Option<TypingFault>
    ensures { result ≡ first_fault (again_fault (assignment_form earlier.now))
        (map assignment_form others.now) }
{
    for later in others {
        if let Some(fault) = again_fault(earlier, later) {
            return Some(fault);
        }
    }
    None
}

/// No two assignments are plainly to one element.
fn twice_fault(assignments: &[Assignment]) -> Option<TypingFault>
    ensures { result ≡ twice_fault (map assignment_form assignments.now) }
{
    for (index, earlier) in assignments.iter().enumerate() {
        if let Some(fault) = assigned_again(earlier, &assignments[index + 1..]) {
            return Some(fault);
        }
    }
    None
}

/// The first fault of a step, in the scope of its own variables.
fn own_fault<'a>(scope: &Scope<'a, '_>, step: &'a Step) -> Option<TypingFault>
    ensures { result ≡ own_fault (scope_of scope.now) (step_form step.now) }
{
    let place = step.name.place;
    let are_few = step.assignments.len() <= MAX_ASSIGNMENTS;
    if let Some(fault) = fault_unless(are_few, TypingRule::Limit, place) {
        return Some(fault);
    }
    if let Some(fault) = condition_fault(scope, place, &step.guard) {
        return Some(fault);
    }
    if let Some(fault) = assignments_fault(scope, &step.assignments) {
        return Some(fault);
    }
    twice_fault(&step.assignments)
}

/// The first fault of a step.
fn step_fault<'a>(scope: &Scope<'a, '_>, step: &'a Step) -> Option<TypingFault>
    ensures { result ≡ step_fault (scope_of scope.now) (step_form step.now) }
{
    let around = Around::Variables(&step.variables, scope.around);
    let inner = Scope {
        declarations: scope.declarations,
        signatures: scope.signatures,
        naming: scope.naming,
        around: &around,
    };
    own_fault(&inner, step)
}

/// The first fault of steps.
pub(crate) fn steps_fault<'a>(scope: &Scope<'a, '_>, steps: &'a [Step]) -> Option<TypingFault>
    ensures { result ≡ first_fault (step_fault (scope_of scope.now)) (map step_form steps.now) }
{
    for step in steps {
        if let Some(fault) = step_fault(scope, step) {
            return Some(fault);
        }
    }
    None
}

/// The first fault of the term of a state variable in `init`, where there is no state.
fn initial_value_fault(
    declarations: &Declarations<'_>,
    known: &HashMap<&'_ str, Signature>,
    entry: &StateEntry<'_>,
    value: &Argument,
) -> Option<TypingFault>
    ensures { result ≡ element_value_fault (spec_of declarations.now) (signatures_in known.now)
        (Some (state_entry_form entry.now)) value.now.place (term_form value.now.term) }
{
    let outermost = Around::Outermost;
    let around = Around::Variables(&entry.variable.indices, &outermost);
    let scope = Scope {
        declarations,
        signatures: known,
        naming: Naming::AtStart,
        around: &around,
    };
    let kind = sort_kind(declarations, &entry.sort.text);
    value_fault(&scope, kind, value)
}

/// The first fault of the term at a place in `init`.
fn element_value_fault(
    declarations: &Declarations<'_>,
    known: &HashMap<&'_ str, Signature>,
    entries: &[StateEntry<'_>],
    index: usize,
    value: &Argument,
) -> Option<TypingFault>
    ensures { result ≡ element_value_fault (spec_of declarations.now) (signatures_in known.now)
        (slice_get (state_forms entries.now) index) value.now.place
        (term_form value.now.term) }
{
    match entries.get(index) {
        None => None,
        Some(entry) => initial_value_fault(declarations, known, entry, value),
    }
}

/// The first fault of the terms of `init`.
fn elements_fault(
    declarations: &Declarations<'_>,
    known: &HashMap<&'_ str, Signature>,
    entries: &[StateEntry<'_>],
    values: &[Argument],
) -> Option<TypingFault>
    ensures { result ≡ elements_fault (spec_of declarations.now) (signatures_in known.now) 0
        (state_forms entries.now) (argument_forms values.now) }
{
    for (index, value) in values.iter().enumerate() {
        if let Some(fault) = element_value_fault(declarations, known, entries, index, value) {
            return Some(fault);
        }
    }
    None
}

/// Whether there is a term for each state variable.
fn is_count(entries: &[StateEntry<'_>], values: &[Argument]) -> bool
    ensures { result ≡ (count (argument_forms values.now) == length (state_forms entries.now)) }
{
    values.len() == entries.len()
}

/// The first fault of the initial values.
pub(crate) fn initial_fault(
    declarations: &Declarations<'_>,
    known: &HashMap<&'_ str, Signature>,
    entries: &[StateEntry<'_>],
    initial: &InitialState,
) -> Option<TypingFault>
    ensures { result ≡ initial_fault (spec_of declarations.now) (signatures_in known.now)
        (state_forms entries.now) (initial_form initial.now) }
{
    let is_count = is_count(entries, &initial.values);
    if let Some(fault) = fault_unless(is_count, TypingRule::WrongCount, initial.place) {
        return Some(fault);
    }
    elements_fault(declarations, known, entries, &initial.values)
}
