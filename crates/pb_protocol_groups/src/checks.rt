//! What a model has to have to be packed.

ghost use Rattle.std.specs.Prelude.{◌≡◌, ◌++◌, [], ◌==◌, map, length, flat_map, Contains, IfOk};
ghost use Rattle.std.specs.Prelude.{List, MatchResult, OnOk, ℕ};
ghost use Rattle.pb_text_tree.specs.Form.{enumerator_form, named, sort_declaration_form};
ghost use Rattle.pb_text_tree.specs.Form.{sort_form};
ghost use Rattle.pb_typing_declarations.specs.Declarations.{own_names};
ghost use Rattle.pb_typing_declarations.specs.Faults.{IsAmong};
ghost use Rattle.pb_model_tree.specs.Form.{model_form, step_form};
ghost use Rattle.pb_model_meaning.specs.Erase.{model_of};
ghost use Rattle.pb_protocol_typing.specs.View.{names_in};
ghost use Rattle.pb_protocol_packing.specs.Apart.{is_among, term_count};
ghost use Rattle.pb_protocol_packing.specs.Packable.{IsPackable};
ghost use Rattle.pb_protocol_packer.specs.Initial.{names_by};
ghost use Rattle.pb_protocol_packer.specs.View.{terms_of};
ghost use Rattle.pb_protocol_groups.specs.Checks.{count_faults, chain_faults, listed_faults};
ghost use Rattle.pb_protocol_groups.specs.Checks.{names_of_sort, step_own_names, sort_enumerators};
ghost use Rattle.pb_protocol_groups.specs.Checks.{state_faults, taken_faults, taken_faults_by};
ghost use Rattle.pb_protocol_groups.specs.Checks.{test_faults};
ghost use Rattle.pb_protocol_groups.specs.NameSets.{is_name_in};
ghost use Rattle.pb_protocol_groups.specs.Variables.{variables_of_state};

use crate::bound_names::bound_names;
use crate::bound_terms::push_names;
use crate::end::has_end;
use crate::state_variables::{StateVariable, state_variables};
use pb_model_tree::{Model, Step};
use pb_protocol_typing::check_apart;
use pb_text_tree::{Argument, Enumerator, Name, Sort, SortDeclaration};
use pb_typing_declarations::{TypeError, TypingFault, TypingRule, require};
use std::alloc::{AllocError, Global};
use std::collections::HashSet;

/// The names as a set.
fn set_of<'a>(alloc: Global, names: &[&'a Name]) -> Result<HashSet<&'a str>, AllocError>
    ensures { IfOk result
        (λ set. (x : List ℕ) → is_name_in set x ≡ is_among (names_by names.now) x) }
{
    let mut set = HashSet::new(alloc);
    for name in names {
        set.insert(name.text.as_str())?;
    }
    Ok(set)
}

fn is_taken(taken: &HashSet<&str>, name: &Name) -> bool
    ensures { result ≡ is_name_in taken.now (named name.now).text }
{
    taken.contains(name.text.as_str())
}

/// No name is taken (T02).
fn check_each(taken: &HashSet<&str>, names: &[&Name]) -> Result<(), TypingFault>
    ensures { MatchResult result
        (λ _. flat_map (taken_faults_by (is_name_in taken.now)) (names_in names.now) ≡ [])
        (Contains (flat_map (taken_faults_by (is_name_in taken.now)) (names_in names.now))) }
{
    for name in names {
        let is_taken = is_taken(taken, name);
        require(!is_taken, TypingRule::NameTwice, name.place)?;
    }
    Ok(())
}

/// None of the second names is one of the first (T02).
fn check_none_among(alloc: Global, names: &[&Name], others: &[&Name]) -> Result<(), TypeError>
    ensures { MatchResult result
        (λ _. flat_map (taken_faults (names_by names.now)) (names_in others.now) ≡ [])
        (IsAmong (flat_map (taken_faults (names_by names.now)) (names_in others.now))) }
{
    let taken = set_of(alloc, names)?;
    check_each(&taken, others)?;
    Ok(())
}

fn push_enumerators<'a>(
    names: &mut Vec<&'a Name>,
    enumerators: &'a [Enumerator],
) -> Result<(), AllocError>
    ensures { OnOk result (names_in names.new.items
        ≡ names_in names.old.items ++ own_names (map enumerator_form enumerators.now)) }
{
    for enumerator in enumerators {
        names.push(&enumerator.name)?;
    }
    Ok(())
}

fn push_sort<'a>(names: &mut Vec<&'a Name>, sort: &'a Sort) -> Result<(), AllocError>
    ensures { OnOk result (names_in names.new.items
        ≡ names_in names.old.items ++ names_of_sort (sort_form sort.now)) }
{
    match sort {
        Sort::Struct(enumerators) => push_enumerators(names, enumerators),
        Sort::Alias(_) => Ok(()),
    }
}

/// The names of all enumerators.
fn all_enumerators(alloc: Global, sorts: &[SortDeclaration]) -> Result<Vec<&Name>, AllocError>
    ensures { IfOk result (λ v. names_in v.items
        ≡ flat_map sort_enumerators (map sort_declaration_form sorts.now)) }
{
    let mut names = Vec::new(alloc);
    for declaration in sorts {
        push_sort(&mut names, &declaration.sort)?;
    }
    Ok(names)
}

/// The names of the variables of steps.
fn step_variables(alloc: Global, steps: &[Step]) -> Result<Vec<&Name>, AllocError>
    ensures { IfOk result
        (λ v. names_in v.items ≡ flat_map step_own_names (map step_form steps.now)) }
{
    let mut names = Vec::new(alloc);
    for step in steps {
        push_names(&mut names, &step.variables)?;
    }
    Ok(names)
}

/// State variables have names of their own, which no variable of a step has (T02).
fn check_state(alloc: Global, model: &Model) -> Result<(), TypeError>
    ensures { MatchResult result (λ _. state_faults (model_form model.now) ≡ [])
        (IsAmong (state_faults (model_form model.now))) }
{
    let mut state = Vec::new(alloc);
    push_names(&mut state, &model.state)?;
    check_apart(alloc, &state)?;
    let own = step_variables(alloc, &model.steps)?;
    check_none_among(alloc, &own, &state)
}

/// Enumerators have names of their own, which no variable has (T02).
fn check_enumerators(alloc: Global, model: &Model) -> Result<(), TypeError>
    ensures { MatchResult result (λ _. listed_faults (model_form model.now) ≡ [])
        (IsAmong (listed_faults (model_form model.now))) }
{
    let enumerators = all_enumerators(alloc, &model.sorts)?;
    check_apart(alloc, &enumerators)?;
    let variables = bound_names(alloc, model)?;
    check_none_among(alloc, &enumerators, &variables)
}

/// The chain of each alias has an end (T03).
fn check_ends(model: &Model) -> Result<(), TypingFault>
    ensures { MatchResult result
        (λ _. flat_map (chain_faults (model_of model.now)) (model_form model.now).sorts ≡ [])
        (Contains (flat_map (chain_faults (model_of model.now)) (model_form model.now).sorts)) }
{
    for declaration in &model.sorts {
        let has_end = has_end(model, &declaration.name);
        require(has_end, TypingRule::UnknownSort, declaration.name.place)?;
    }
    Ok(())
}

/// Whether there are as many values as state variables.
fn is_count(values: &[Argument], state: &[StateVariable<'_>]) -> bool
    ensures { result
        ≡ (term_count (terms_of values.now) == length (variables_of_state state.now)) }
{
    values.len() == state.len()
}

/// There are as many initial values as state variables (T08).
fn check_count(alloc: Global, model: &Model) -> Result<(), TypeError>
    ensures { MatchResult result (λ _. count_faults (model_form model.now) ≡ [])
        (IsAmong (count_faults (model_form model.now))) }
{
    let state = state_variables(alloc, &model.state)?;
    let is_count = is_count(&model.initial.values, &state);
    require(is_count, TypingRule::WrongCount, model.initial.place)?;
    Ok(())
}

/// Checks what is tested of a model before it is packed.
fn check_all(alloc: Global, model: &Model) -> Result<(), TypeError>
    ensures { MatchResult result (λ _. test_faults (model_form model.now) ≡ [])
        (IsAmong (test_faults (model_form model.now))) }
{
    check_state(alloc, model)?;
    check_enumerators(alloc, model)?;
    check_ends(model)?;
    check_count(alloc, model)
}

/// Checks that a model can be packed.
///
/// # Errors
/// T02 at a name: state variables or enumerators with one name, a state variable with the name of a
/// step's variable, or a variable with the name of an enumerator. T03 at an alias whose chain has
/// no end. T08 at `init` where the initial values aren't as many as the state variables. Or memory
/// was refused.
pub fn check_packable(alloc: Global, model: &Model) -> Result<(), TypeError>
    ensures accepted { OnOk result (IsPackable (model_of model.now)) }
    ensures checked { MatchResult result (λ _. test_faults (model_form model.now) ≡ [])
        (IsAmong (test_faults (model_form model.now))) }
{
    check_all(alloc, model)
}
