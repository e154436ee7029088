//! What sorts and enumerators are declared to be, in the order of the text.

ghost use Rattle.std.specs.Prelude.{◌≡◌, ◌≤◌, ◌++◌, [], nat_le, map, flat_map, length, Contains};
ghost use Rattle.std.specs.Prelude.{MatchResult};
ghost use Rattle.pb_text_tree.specs.Form.{enumerator_form, sort_declaration_form, sort_form};
ghost use Rattle.pb_text_tree.specs.Form.{recogniser_form, named};
ghost use Rattle.pb_typing_declarations.specs.Faults.{IsAmong, repeated};
ghost use Rattle.pb_typing_declarations.specs.Declarations.{limit_faults, own_names, struct_faults};
ghost use Rattle.pb_typing_declarations.specs.Declarations.{structs_faults, recogniser_faults};
ghost use Rattle.pb_typing_declarations.specs.Declarations.{enumerator_faults, is_named_function};
ghost use Rattle.pb_typing_declarations.specs.Entries.{as_enumerator, as_recogniser};
ghost use Rattle.pb_typing_declarations.specs.Declarations.{all_enumerator_forms, sort_names};
ghost use Rattle.pb_typing_declarations.specs.Declarations.{names_of_enumerator};
ghost use Rattle.pb_typing_declarations.specs.Reading.{AreDefinitions, IsDefinition, AreDefined};
ghost use Rattle.pb_typing_declarations.specs.Reading.{HasEnumerators, HasRecogniser};

use crate::entry::Entry;
use crate::fault::{TypeError, TypingFault, TypingRule, require};
use crate::sorts::Enumerator;
use crate::table::table;
use pb_base::{MAX_ENUMERATORS, MAX_NAME_BYTES, MAX_STRUCTS};
use pb_sorts::Enumeration;
use pb_text_meaning::NamedFunction;
use pb_text_tree::{Name, Sort, SortDeclaration};
use std::alloc::Global;
use std::collections::HashMap;

/// What a sort is declared to be.
#[derive(Clone, Copy)]
pub(crate) enum Definition<'a> {
    Struct(Enumeration),
    Alias(&'a str),
}

impl Definition<'_> {
    ghost use Rattle.pb_typing_declarations.specs.Entries.{shown, struct_count};

    /// One for a struct, none for an alias.
    fn struct_count(&self) -> usize
        ensures { result ≡ struct_count (shown self.now) }
    {
        match self {
            Definition::Struct(_) => 1,
            Definition::Alias(_) => 0,
        }
    }
}

/// What a name in data is declared to be: an enumerator, or the recogniser of one.
#[derive(Clone, Copy)]
pub(crate) enum DataName {
    Enumerator(Enumerator),
    Recogniser(Enumerator),
}

/// The enumerator that a name stands for, if it is an enumerator's.
pub(crate) fn as_enumerator(name: Option<DataName>) -> Option<Enumerator>
    ensures { result ≡ as_enumerator name }
{
    match name {
        Some(DataName::Enumerator(enumerator)) => Some(enumerator),
        _ => None,
    }
}

/// The enumerator that a name is the recogniser of, if it is a recogniser's.
pub(crate) fn as_recogniser(name: Option<DataName>) -> Option<Enumerator>
    ensures { result ≡ as_recogniser name }
{
    match name {
        Some(DataName::Recogniser(enumerator)) => Some(enumerator),
        _ => None,
    }
}

/// Definitions of sorts, and the names of enumerators and recognisers.
#[derive(Drop)]
pub(crate) struct Definitions<'a> {
    pub sorts: Vec<Entry<'a, Definition<'a>>>,
    pub names: Vec<Entry<'a, DataName>>,
}

/// The same by name.
#[derive(Drop)]
pub(crate) struct DefinitionTables<'a> {
    pub sorts: HashMap<&'a str, Definition<'a>>,
    pub names: HashMap<&'a str, DataName>,
}

/// All definitions by name, if they are as they must be and no name stands twice.
pub(crate) fn definition_tables(
    alloc: Global,
    sorts: &[SortDeclaration],
) -> Result<DefinitionTables<'_>, TypeError>
    ensures { MatchResult result
        (λ tables. AreDefined (map sort_declaration_form sorts.now) tables)
        (IsAmong (structs_faults 0 (map sort_declaration_form sorts.now)
        ++ (repeated (flat_map names_of_enumerator
        (all_enumerator_forms (map sort_declaration_form sorts.now)))
        ++ repeated (sort_names (map sort_declaration_form sorts.now))))) }
{
    let definitions = read_definitions(alloc, sorts)?;
    let names = table(alloc, &definitions.names)?;
    let sorts = table(alloc, &definitions.sorts)?;
    Ok(DefinitionTables { sorts, names })
}

/// All definitions, if the structs and their enumerators are within the limits and no recogniser
/// has a function's name.
fn read_definitions(alloc: Global, sorts: &[SortDeclaration]) -> Result<Definitions<'_>, TypeError>
    ensures { MatchResult result
        (λ definitions. AreDefinitions (map sort_declaration_form sorts.now) definitions)
        (IsAmong (structs_faults 0 (map sort_declaration_form sorts.now))) }
{
    let mut definitions = Vec::new(alloc);
    let mut names = Vec::new(alloc);
    let mut number = 0;
    for declaration in sorts {
        let definition = read_definition(&mut names, number, declaration)?;
        number += definition.struct_count();
        definitions.push(Entry {
            name: &declaration.name.text,
            place: declaration.name.place,
            value: definition,
        })?;
    }
    Ok(Definitions {
        sorts: definitions,
        names,
    })
}

/// The definition of a sort, where `number` structs stand before it. The names of its enumerators
/// come to `names`.
fn read_definition<'a>(
    names: &mut Vec<Entry<'a, DataName>>,
    number: usize,
    declaration: &'a SortDeclaration,
) -> Result<Definition<'a>, TypeError>
    requires { number ≤ MAX_STRUCTS }
    ensures { MatchResult result
        (λ definition. IsDefinition number
        (sort_declaration_form declaration.now) names.old.items names.new.items definition)
        (IsAmong (struct_faults number declaration.now.name.place
        (sort_form declaration.now.sort))) }
{
    match &declaration.sort {
        Sort::Struct(enumerators) => {
            let place = declaration.name.place;
            let count = enumerators.len();
            require(number < MAX_STRUCTS, TypingRule::Limit, place)?;
            require(0 < count, TypingRule::Limit, place)?;
            check_count(enumerators)?;
            let enumeration = Enumeration {
                sort: number as u8,
                count: count as u8,
            };
            push_enumerators(names, enumeration, enumerators)?;
            Ok(Definition::Struct(enumeration))
        }
        Sort::Alias(target) => Ok(Definition::Alias(&target.text)),
    }
}

/// Whether a struct has few enough enumerators; the fault (T12) stands at the one that passes the
/// limit.
fn check_count(enumerators: &[pb_text_tree::Enumerator]) -> Result<(), TypingFault>
    ensures { MatchResult result
        (λ _. (limit_faults MAX_ENUMERATORS (own_names (map enumerator_form enumerators.now)) ≡ [])
        × (length enumerators.now ≤ MAX_ENUMERATORS))
        (Contains (limit_faults MAX_ENUMERATORS
        (own_names (map enumerator_form enumerators.now)))) }
{
    match enumerators.get(MAX_ENUMERATORS) {
        None => Ok(()),
        Some(enumerator) => Err(TypingFault {
            rule: TypingRule::Limit,
            place: enumerator.name.place,
        }),
    }
}

/// Adds the names of a struct's enumerators, each with its recogniser's.
fn push_enumerators<'a>(
    names: &mut Vec<Entry<'a, DataName>>,
    enumeration: Enumeration,
    enumerators: &'a [pb_text_tree::Enumerator],
) -> Result<(), TypeError>
    requires { length enumerators.now ≤ MAX_ENUMERATORS }
    ensures { MatchResult result
        (λ _. HasEnumerators enumeration.sort enumeration.count 0
        (map enumerator_form enumerators.now) names.old.items names.new.items)
        (IsAmong (flat_map enumerator_faults (map enumerator_form enumerators.now))) }
{
    for (index, enumerator) in enumerators.iter().enumerate() {
        let name = &enumerator.name;
        let position = Enumerator {
            sort: enumeration.sort,
            count: enumeration.count,
            place: index as u8,
        };
        require(is_short(name), TypingRule::Limit, name.place)?;
        names.push(Entry {
            name: &name.text,
            place: name.place,
            value: DataName::Enumerator(position),
        })?;
        push_recogniser(names, position, &enumerator.recogniser)?;
    }
    Ok(())
}

/// Adds the name of an enumerator's recogniser, if it has one, which is no function's (T02).
fn push_recogniser<'a>(
    names: &mut Vec<Entry<'a, DataName>>,
    position: Enumerator,
    recogniser: &'a Option<Name>,
) -> Result<(), TypeError>
    ensures { MatchResult result
        (λ _. HasRecogniser position
        (recogniser_form recogniser.now) names.old.items names.new.items)
        (IsAmong (recogniser_faults (recogniser_form recogniser.now))) }
{
    match recogniser {
        None => Ok(()),
        Some(name) => {
            require(
                !is_named_function(&name.text),
                TypingRule::NameTwice,
                name.place,
            )?;
            names.push(Entry {
                name: &name.text,
                place: name.place,
                value: DataName::Recogniser(position),
            })?;
            Ok(())
        }
    }
}

/// Whether a name has at most `MAX_NAME_BYTES` bytes.
pub(crate) fn is_short(name: &Name) -> bool
    ensures { result ≡ nat_le (length (named name.now).text) MAX_NAME_BYTES }
{
    let text = name.text.as_str();
    text.len() <= MAX_NAME_BYTES
}

/// Whether a function that is there in each text has this name.
fn is_named_function(name: &str) -> bool
    ensures { result ≡ is_named_function name.now }
{
    NamedFunction::named(name).is_some()
}
