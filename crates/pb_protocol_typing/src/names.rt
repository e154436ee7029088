//! The names of a protocol: that no two of one name space are one.

ghost use Rattle.std.specs.Prelude.{◌≡◌, ◌++◌, [], Contains, IfOk, MatchResult, OnOk, flat_map};
ghost use Rattle.std.specs.Prelude.{map};
ghost use Rattle.pb_text_tree.specs.Form.{named, variables_form, variable_forms};
ghost use Rattle.pb_typing_declarations.specs.Declarations.{variable_names};
ghost use Rattle.pb_typing_declarations.specs.Faults.{repeated, IsAmong};
ghost use Rattle.pb_protocol_tree.specs.Form.{definition_form, property_form, protocol_form};
ghost use Rattle.pb_protocol_tree.specs.Form.{state_variables_form, step_form};
ghost use Rattle.pb_protocol_typing.specs.Faults.{apart_faults, blank_faults, declared_names};
ghost use Rattle.pb_protocol_typing.specs.Faults.{definition_names, hiding_faults};
ghost use Rattle.pb_protocol_typing.specs.Faults.{names_faults, names_hiding, property_names};
ghost use Rattle.pb_protocol_typing.specs.Faults.{state_names, step_names};
ghost use Rattle.pb_protocol_typing.specs.Scopes.{is_blank, is_reserved};
ghost use Rattle.pb_protocol_typing.specs.View.{names_in, signatures_in};

use crate::signature::Signature;
use pb_protocol_tree::{Definition, Property, Protocol, StateVariables, Step};
use pb_text_tree::{Name, Variables};
use pb_typing_declarations::{TypeError, TypingFault, TypingRule, require};
use std::alloc::{AllocError, Global};
use std::collections::{HashMap, HashSet};

/// Checks that no name stands twice.
///
/// # Errors
/// T02 at a name that was declared before. Or memory was refused.
pub fn check_apart(alloc: Global, names: &[&Name]) -> Result<(), TypeError>
    ensures { MatchResult result (λ _. repeated (names_in names.now) ≡ [])
        (IsAmong (repeated (names_in names.now))) }
{
    let mut seen = HashSet::new(alloc);
    for name in names {
        let is_new = seen.insert(name.text.as_str())?;
        require(is_new, TypingRule::NameTwice, name.place)?;
    }
    Ok(())
}

pub(crate) fn is_blank(name: &Name) -> bool
    ensures { result ≡ is_blank (named name.now) }
{
    name.text.as_str() == "_"
}

/// Checks that no name is `_`, which stands for any value in sets of steps.
fn check_blank(names: &[&Name]) -> Result<(), TypingFault>
    ensures { MatchResult result
        (λ _. flat_map blank_faults (names_in names.now) ≡ [])
        (Contains (flat_map blank_faults (names_in names.now))) }
{
    for name in names {
        let is_blank = is_blank(name);
        require(!is_blank, TypingRule::NameTwice, name.place)?;
    }
    Ok(())
}

fn check_declared(alloc: Global, names: &[&Name]) -> Result<(), TypeError>
    ensures { MatchResult result (λ _. apart_faults (names_in names.now) ≡ [])
        (IsAmong (apart_faults (names_in names.now))) }
{
    check_apart(alloc, names)?;
    check_blank(names)?;
    Ok(())
}

fn push_state<'a>(names: &mut Vec<&'a Name>, group: &'a StateVariables) -> Result<(), AllocError>
    ensures { OnOk result (names_in names.new.items
        ≡ names_in names.old.items ++ state_names (state_variables_form group.now)) }
{
    for variable in &group.variables {
        names.push(&variable.name)?;
    }
    Ok(())
}

fn push_definitions<'a>(
    names: &mut Vec<&'a Name>,
    definitions: &'a [Definition],
) -> Result<(), AllocError>
    ensures { OnOk result (names_in names.new.items ≡ names_in names.old.items
        ++ definition_names (map definition_form definitions.now)) }
{
    for definition in definitions {
        names.push(&definition.name)?;
    }
    Ok(())
}

fn state_names(alloc: Global, groups: &[StateVariables]) -> Result<Vec<&Name>, AllocError>
    ensures { IfOk result (λ names. names_in names.items
        ≡ state_names (flat_map state_variables_form groups.now)) }
{
    let mut names = Vec::new(alloc);
    for group in groups {
        push_state(&mut names, group)?;
    }
    Ok(names)
}

fn step_names(alloc: Global, steps: &[Step]) -> Result<Vec<&Name>, AllocError>
    ensures { IfOk result (λ names. names_in names.items ≡ step_names (map step_form steps.now)) }
{
    let mut names = Vec::with_capacity(alloc, steps.len())?;
    for step in steps {
        names.push(&step.name)?;
    }
    Ok(names)
}

fn property_names(alloc: Global, properties: &[Property]) -> Result<Vec<&Name>, AllocError>
    ensures { IfOk result
        (λ names. names_in names.items ≡ property_names (map property_form properties.now)) }
{
    let mut names = Vec::with_capacity(alloc, properties.len())?;
    for property in properties {
        names.push(&property.name)?;
    }
    Ok(names)
}

/// The names of the state variables and definitions of a protocol, in order.
///
/// # Errors
/// Memory was refused.
pub fn declared_names(alloc: Global, protocol: &Protocol) -> Result<Vec<&Name>, AllocError>
    ensures { IfOk result
        (λ names. names_in names.items ≡ declared_names (protocol_form protocol.now)) }
{
    let mut names = state_names(alloc, &protocol.state)?;
    push_definitions(&mut names, &protocol.definitions)?;
    Ok(names)
}

/// Checks the names of state variables and definitions, of steps, and of properties.
pub(crate) fn check_names(alloc: Global, protocol: &Protocol) -> Result<(), TypeError>
    ensures { MatchResult result (λ _. names_faults (protocol_form protocol.now) ≡ [])
        (IsAmong (names_faults (protocol_form protocol.now))) }
{
    let names = declared_names(alloc, protocol)?;
    check_declared(alloc, &names)?;
    let steps = step_names(alloc, &protocol.steps)?;
    check_apart(alloc, &steps)?;
    let properties = property_names(alloc, &protocol.properties)?;
    check_apart(alloc, &properties)
}

/// Adds the names of variables, in order.
///
/// # Errors
/// Memory was refused.
pub fn push_variable_names<'a>(
    names: &mut Vec<&'a Name>,
    groups: &'a [Variables],
) -> Result<(), AllocError>
    ensures { OnOk result (names_in names.new.items
        ≡ names_in names.old.items ++ variable_names (variable_forms groups.now)) }
{
    for group in groups {
        push_group(names, group)?;
    }
    Ok(())
}

/// The names of variables, in order.
fn variable_names(alloc: Global, groups: &[Variables]) -> Result<Vec<&Name>, AllocError>
    ensures { IfOk result
        (λ names. names_in names.items ≡ variable_names (variable_forms groups.now)) }
{
    let mut names = Vec::new(alloc);
    push_variable_names(&mut names, groups)?;
    Ok(names)
}

fn push_group<'a>(names: &mut Vec<&'a Name>, group: &'a Variables) -> Result<(), AllocError>
    ensures { OnOk result (names_in names.new.items
        ≡ names_in names.old.items ++ variable_names (variables_form group.now)) }
{
    for name in &group.names {
        names.push(name)?;
    }
    Ok(())
}

/// Whether no variable but a quantifier's in data may have this name: it is a state variable's or a
/// definition's, or `_`.
fn is_reserved(known: &HashMap<&'_ str, Signature>, name: &Name) -> bool
    ensures { result ≡ is_reserved (signatures_in known.now) (named name.now) }
{
    known.contains_key(name.text.as_str()) || is_blank(name)
}

/// Checks that a variable may have its name (T02).
fn check_new(known: &HashMap<&'_ str, Signature>, name: &Name) -> Result<(), TypingFault>
    ensures { MatchResult result
        (λ _. hiding_faults (signatures_in known.now) (named name.now) ≡ [])
        (Contains (hiding_faults (signatures_in known.now) (named name.now))) }
{
    let is_reserved = is_reserved(known, name);
    require(!is_reserved, TypingRule::NameTwice, name.place)
}

fn check_each_new(known: &HashMap<&'_ str, Signature>, names: &[&Name]) -> Result<(), TypingFault>
    ensures { MatchResult result
        (λ _. flat_map (hiding_faults (signatures_in known.now)) (names_in names.now) ≡ [])
        (Contains (flat_map (hiding_faults (signatures_in known.now)) (names_in names.now))) }
{
    for name in names {
        check_new(known, name)?;
    }
    Ok(())
}

/// Checks that each variable of a list may have its name.
pub(crate) fn check_hiding(
    alloc: Global,
    known: &HashMap<&'_ str, Signature>,
    groups: &[Variables],
) -> Result<(), TypeError>
    ensures { MatchResult result
        (λ _. names_hiding (signatures_in known.now) (variable_forms groups.now) ≡ [])
        (IsAmong (names_hiding (signatures_in known.now) (variable_forms groups.now))) }
{
    let names = variable_names(alloc, groups)?;
    check_each_new(known, &names)?;
    Ok(())
}
