//! The rules of whole protocols.

ghost use Rattle.std.specs.Prelude.{◌≡◌, None, Some, [], map, Contains, IfOk, MatchResult, OnOk};
ghost use Rattle.pb_base.specs.OrMemory.{IfFault, IfRefused, OnRefused};
ghost use Rattle.pb_text_tree.specs.Form.{spec_form};
ghost use Rattle.pb_typing_declarations.specs.Faults.{IsAmong};
ghost use Rattle.pb_typing_declarations.specs.View.{spec_of};
ghost use Rattle.pb_protocol_tree.specs.Form.{property_form, protocol_form};
ghost use Rattle.pb_protocol_typing.specs.Fault.{first_fault};
ghost use Rattle.pb_protocol_typing.specs.Faults.{data_form, protocol_own_faults, parts_fault};
ghost use Rattle.pb_protocol_typing.specs.Faults.{property_fault, protocol_faults, signatures_of};
ghost use Rattle.pb_protocol_typing.specs.Faults.{state_of};
ghost use Rattle.pb_protocol_typing.specs.Steps.{definitions_fault};
ghost use Rattle.pb_protocol_typing.specs.View.{scope_of, shapes_in, signatures_in};

use crate::around::Around;
use crate::formula::formula_fault;
use crate::lists::check_lists;
use crate::names::check_names;
use crate::scope::{Naming, Scope};
use crate::signature::{Signature, Steps, state_entries, state_table, step_table};
use crate::step::{check_definitions, initial_fault, steps_fault};
use pb_protocol_tree::{Property, Protocol};
use pb_sorts::Counting;
use pb_text_tree::{Instance, Name, Spec, copy_declarations, copy_ranges};
use pb_typing::Polarity;
use pb_typing_declarations::{Declarations, TypeError, TypingFault};
use std::alloc::{AllocError, Global};
use std::collections::HashMap;

/// The sorts and ranges of a protocol, as a text without equations.
fn data_text(alloc: Global, protocol: &Protocol) -> Result<Spec, AllocError>
    ensures { IfOk result (λ text. spec_form text ≡ data_form (protocol_form protocol.now)) }
{
    let sorts = copy_declarations(alloc, &protocol.sorts)?;
    let ranges = copy_ranges(alloc, &protocol.ranges)?;
    let text = "_".to_owned(alloc)?;
    let place = protocol.initial.place;
    let initial = Instance {
        name: Name { place, text },
        arguments: Vec::new(alloc),
    };
    Ok(Spec {
        sorts,
        ranges,
        equations: Vec::new(alloc),
        initial,
    })
}

/// The state variables and definitions of a protocol, if the definitions are as they must be.
fn known_names<'p>(
    alloc: Global,
    declarations: &Declarations<'_>,
    protocol: &'p Protocol,
) -> Result<HashMap<&'p str, Signature>, TypeError>
    ensures { MatchResult result
        (λ known. (definitions_fault (spec_of declarations.now)
        (state_of (spec_of declarations.now) (protocol_form protocol.now))
        (protocol_form protocol.now).definitions ≡ None)
        × (signatures_in known
        ≡ signatures_of (spec_of declarations.now) (protocol_form protocol.now)))
        (λ error. IfFault error (λ fault. definitions_fault (spec_of declarations.now)
        (state_of (spec_of declarations.now) (protocol_form protocol.now))
        (protocol_form protocol.now).definitions ≡ Some fault)) }
{
    let entries = state_entries(alloc, &protocol.state)?;
    let mut known = state_table(alloc, declarations, &entries)?;
    check_definitions(alloc, declarations, &mut known, &protocol.definitions)?;
    Ok(known)
}

fn properties_fault<'a>(
    steps: &Steps<'_>,
    scope: &Scope<'a, '_>,
    properties: &'a [Property],
) -> Option<TypingFault>
    ensures { result ≡ first_fault (property_fault (shapes_in steps.now) (scope_of scope.now))
        (map property_form properties.now) }
{
    for property in properties {
        let polarity = Polarity::Positive;
        if let Some(fault) = formula_fault(steps, scope, polarity, &property.formula) {
            return Some(fault);
        }
    }
    None
}

/// Checks steps, initial values and properties, where these names may be used.
fn check_parts(
    alloc: Global,
    declarations: &Declarations<'_>,
    known: &HashMap<&'_ str, Signature>,
    protocol: &Protocol,
) -> Result<(), TypeError>
    ensures { MatchResult result
        (λ _. parts_fault (spec_of declarations.now) (signatures_in known.now)
        (protocol_form protocol.now) ≡ None)
        (λ error. IfFault error (λ fault. parts_fault (spec_of declarations.now)
        (signatures_in known.now) (protocol_form protocol.now) ≡ Some fault)) }
{
    let entries = state_entries(alloc, &protocol.state)?;
    let steps = step_table(alloc, declarations, &protocol.steps)?;
    let around = Around::Outermost;
    let scope = Scope {
        declarations,
        signatures: known,
        naming: Naming::All,
        around: &around,
    };
    if let Some(fault) = steps_fault(&scope, &protocol.steps) {
        return Err(TypeError::Refused(fault));
    }
    if let Some(fault) = initial_fault(declarations, known, &entries, &protocol.initial) {
        return Err(TypeError::Refused(fault));
    }
    if let Some(fault) = properties_fault(&steps, &scope, &protocol.properties) {
        return Err(TypeError::Refused(fault));
    }
    Ok(())
}

/// Checks the rules beside those of sorts and ranges.
fn check_own(
    alloc: Global,
    declarations: &Declarations<'_>,
    protocol: &Protocol,
) -> Result<(), TypeError>
    ensures { MatchResult result
        (λ _. protocol_own_faults (spec_of declarations.now) (protocol_form protocol.now) ≡ [])
        (IsAmong (protocol_own_faults (spec_of declarations.now) (protocol_form protocol.now))) }
{
    check_names(alloc, protocol)?;
    let known = known_names(alloc, declarations, protocol)?;
    check_lists(alloc, declarations, &known, protocol)?;
    check_parts(alloc, declarations, &known, protocol)
}

/// Checks all rules.
fn check_all(alloc: Global, protocol: &Protocol) -> Result<(), TypeError>
    ensures { MatchResult result (λ _. protocol_faults (protocol_form protocol.now) ≡ [])
        (IsAmong (protocol_faults (protocol_form protocol.now))) }
{
    let text = data_text(alloc, protocol)?;
    let declarations = Declarations::read(alloc, &text, Counting::Reached)?;
    check_own(alloc, &declarations, protocol)
}

/// Checks the rules of a protocol that the check of its unfolded text can't see: sorts, ranges and
/// enumerators, names that are declared twice or hide others, what names stand for, the kinds and
/// numbers of indices and arguments, what is assigned, values of steps in formulas, and negations.
///
/// Recursion goes as deep as terms and formulas nest.
///
/// # Errors
/// A fault exactly where there is one; where several rules fail, any one of them.
/// `TypeError::Memory` comes only where memory was refused.
pub fn check_protocol(alloc: Global, protocol: &Protocol) -> Result<(), TypeError>
    ensures accepted { OnOk result (protocol_faults (protocol_form protocol.now) ≡ []) }
    ensures fails { IfRefused result (Contains (protocol_faults (protocol_form protocol.now))) }
    ensures ill_typed { OnRefused result
        (¬ (protocol_faults (protocol_form protocol.now) ≡ [])) }
{
    check_all(alloc, protocol)
}
