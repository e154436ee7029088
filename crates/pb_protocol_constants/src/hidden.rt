//! A constant hides nothing, and nothing hides it: no enumerator, recogniser, state variable,
//! definition or variable has its name (T02 at that).
//!
//! Of fixpoints' variables, and of indices, parameters and own variables, that is a rule of
//! protocols already, since constants are definitions there.

ghost use Rattle.std.specs.Prelude.{◌≡◌, ◌++◌, [], map, flat_map, Contains, IfOk, List};
ghost use Rattle.std.specs.Prelude.{MatchResult, OnOk};
ghost use Rattle.pb_base.specs.OrMemory.{IfFault};
ghost use Rattle.pb_text_tree.specs.Form.{enumerator_form, sort_declaration_form, sort_form};
ghost use Rattle.pb_protocol_tree.specs.Form.{DefinitionForm, definition_form, protocol_form};
ghost use Rattle.pb_protocol_constants.specs.Faults.{IsTypingFaultIn};
ghost use Rattle.pb_protocol_constants.specs.Hidden.{AreNamesOf, hidden_faults, hiding_faults};
ghost use Rattle.pb_protocol_constants.specs.Hidden.{later_names, names_of_sort, names_of_sorts};
ghost use Rattle.pb_protocol_typing.specs.View.{list_forms, names_in};
ghost use Rattle.pb_typing_declarations.specs.Declarations.{names_of_enumerator, variable_names};

use crate::fault::ConstantsError;
use pb_base::OrMemory;
use pb_protocol_tree::{Definition, Protocol};
use pb_protocol_typing::{all_lists, declared_names, push_variable_names};
use pb_text_tree::{Enumerator, Name, Sort, SortDeclaration, Variables};
use pb_typing_declarations::{TypingFault, TypingRule, require};
use std::alloc::{AllocError, Global};
use std::collections::HashSet;

/// The names of constants.
fn constant_names(alloc: Global, constants: &[Definition]) -> Result<HashSet<&'_ str>, AllocError>
    ensures { IfOk result (λ set. AreNamesOf (map definition_form constants.now) set) }
{
    let mut names = HashSet::new(alloc);
    for constant in constants {
        names.insert(constant.name.text.as_str())?;
    }
    Ok(names)
}

/// Adds the name of an enumerator, and that of its recogniser.
fn push_enumerator<'a>(
    names: &mut Vec<&'a Name>,
    enumerator: &'a Enumerator,
) -> Result<(), AllocError>
    ensures { OnOk result (names_in names.new.items
        ≡ names_in names.old.items ++ names_of_enumerator (enumerator_form enumerator.now)) }
{
    names.push(&enumerator.name)?;
    if let Some(recogniser) = &enumerator.recogniser {
        names.push(recogniser)?;
    }
    Ok(())
}

/// Adds the names of enumerators and their recognisers.
fn push_enumerators<'a>(
    names: &mut Vec<&'a Name>,
    enumerators: &'a [Enumerator],
) -> Result<(), AllocError>
    ensures { OnOk result (names_in names.new.items ≡ names_in names.old.items
        ++ flat_map names_of_enumerator (map enumerator_form enumerators.now)) }
{
    for enumerator in enumerators {
        push_enumerator(names, enumerator)?;
    }
    Ok(())
}

/// Adds the names of the enumerators and recognisers of a sort.
fn push_sort<'a>(names: &mut Vec<&'a Name>, sort: &'a Sort) -> Result<(), AllocError>
    ensures { OnOk result (names_in names.new.items
        ≡ names_in names.old.items ++ names_of_sort (sort_form sort.now)) }
{
    match sort {
        Sort::Struct(enumerators) => push_enumerators(names, enumerators),
        Sort::Alias(_) => Ok(()),
    }
}

/// Adds the names of the enumerators and recognisers of all sorts.
fn push_sorts<'a>(names: &mut Vec<&'a Name>, sorts: &'a [SortDeclaration]) -> Result<(), AllocError>
    ensures { OnOk result (names_in names.new.items ≡ names_in names.old.items
        ++ names_of_sorts (map sort_declaration_form sorts.now)) }
{
    for declaration in sorts {
        push_sort(names, &declaration.sort)?;
    }
    Ok(())
}

/// Adds the names of the variables of all lists.
fn push_lists<'a>(names: &mut Vec<&'a Name>, lists: &[&'a [Variables]]) -> Result<(), AllocError>
    ensures { OnOk result (names_in names.new.items ≡ names_in names.old.items
        ++ flat_map variable_names (list_forms lists.now)) }
{
    for groups in lists {
        push_variable_names(names, *groups)?;
    }
    Ok(())
}

/// The names that come after constants, and may not be theirs.
fn later_names(alloc: Global, protocol: &Protocol) -> Result<Vec<&'_ Name>, AllocError>
    ensures { IfOk result
        (λ names. names_in names.items ≡ later_names (protocol_form protocol.now)) }
{
    let mut names = Vec::new(alloc);
    push_sorts(&mut names, &protocol.sorts)?;
    let mut declared = declared_names(alloc, protocol)?;
    names.append(&mut declared)?;
    let lists = all_lists(alloc, protocol)?;
    push_lists(&mut names, &lists)?;
    Ok(names)
}

/// Checks that none of these names is a constant's.
fn check_each(constants: &HashSet<&'_ str>, names: &[&Name]) -> Result<(), TypingFault>
    ensures { (all : List DefinitionForm) → AreNamesOf all constants.now → MatchResult result
        (λ _. flat_map (hiding_faults all) (names_in names.now) ≡ [])
        (Contains (flat_map (hiding_faults all) (names_in names.now))) }
{
    for name in names {
        let is_constant = constants.contains(name.text.as_str());
        require(!is_constant, TypingRule::NameTwice, name.place)?;
    }
    Ok(())
}

/// Checks that no name of a protocol is a constant's.
pub(crate) fn check_hidden(
    alloc: Global,
    constants: &[Definition],
    protocol: &Protocol,
) -> Result<(), ConstantsError>
    ensures { MatchResult result
        (λ _. hidden_faults (map definition_form constants.now) (protocol_form protocol.now) ≡ [])
        (λ error. IfFault error (IsTypingFaultIn
        (hidden_faults (map definition_form constants.now) (protocol_form protocol.now)))) }
{
    let constants = constant_names(alloc, constants)?;
    let names = later_names(alloc, protocol)?;
    match check_each(&constants, &names) {
        Ok(()) => Ok(()),
        Err(fault) => Err(OrMemory::Refused(fault.into())),
    }
}
