//! The sorts of state variables, which have values.

ghost use Rattle.std.specs.Prelude.{◌≡◌, [], ◌∷◌, IfOk, MatchResult, flat_map};
ghost use Rattle.pb_text_tree.specs.Form.{named, variable_forms};
ghost use Rattle.pb_typing_declarations.specs.Declarations.{use_faults};
ghost use Rattle.pb_typing_declarations.specs.Faults.{IsAmong};
ghost use Rattle.pb_typing_declarations.specs.View.{spec_of};
ghost use Rattle.pb_protocol_tree.specs.Form.{state_variables_form};
ghost use Rattle.pb_model_sizes.specs.Sorts.{namesake, state_faults};

use pb_protocol_tree::StateVariables;
use pb_text_tree::{Name, Variables, copy_name};
use pb_typing_declarations::{Declarations, TypeError};
use std::alloc::{AllocError, Global};

/// A list of one variable of a sort, which has the sort's own name.
fn namesake(alloc: Global, sort: &Name) -> Result<Vec<Variables>, AllocError>
    ensures { IfOk result (λ list. variable_forms list.items ≡ namesake (named sort.now) ∷ []) }
{
    let mut names = Vec::new(alloc);
    names.push(copy_name(alloc, sort)?)?;
    let sort = copy_name(alloc, sort)?;
    let mut list = Vec::new(alloc);
    list.push(Variables { names, sort })?;
    Ok(list)
}

/// Checks that a sort has values, as that of a variable.
fn check_sort(alloc: Global, declarations: &Declarations<'_>, sort: &Name) -> Result<(), TypeError>
    ensures { MatchResult result
        (λ _. use_faults (spec_of declarations.now) (named sort.now) ≡ [])
        (IsAmong (use_faults (spec_of declarations.now) (named sort.now))) }
{
    let list = namesake(alloc, sort)?;
    declarations.check_variables(alloc, &list)?;
    Ok(())
}

fn check_group(
    alloc: Global,
    declarations: &Declarations<'_>,
    group: &StateVariables,
) -> Result<(), TypeError>
    ensures { MatchResult result
        (λ _. state_faults (spec_of declarations.now) (state_variables_form group.now) ≡ [])
        (IsAmong (state_faults (spec_of declarations.now) (state_variables_form group.now))) }
{
    if group.variables.is_empty() {
        return Ok(());
    }
    check_sort(alloc, declarations, &group.sort)
}

/// Checks that the sort of each state variable has values.
///
/// # Errors
/// The fault of such a sort exactly where there is one: of the first. `TypeError::Memory` comes
/// only where memory was refused.
pub(crate) fn check_sorts(
    alloc: Global,
    declarations: &Declarations<'_>,
    groups: &[StateVariables],
) -> Result<(), TypeError>
    ensures { MatchResult result
        (λ _. state_faults (spec_of declarations.now)
        (flat_map state_variables_form groups.now) ≡ [])
        (IsAmong (state_faults (spec_of declarations.now)
        (flat_map state_variables_form groups.now))) }
{
    for group in groups {
        check_group(alloc, declarations, group)?;
    }
    Ok(())
}
