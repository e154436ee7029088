//! How many of a model's state variables each group has.

ghost use Rattle.std.specs.Prelude.{◌≡◌, ◌≤◌, length, IfOk};
ghost use Rattle.std.specs.List.{list_all};
ghost use Rattle.pb_model_meaning.specs.Erase.{model_of};
ghost use Rattle.pb_protocol_packing.specs.Sizes as packing;
ghost use Rattle.pb_protocol_packing.specs.Sizes.{cut_into_groups};
ghost use Rattle.pb_protocol_groups.specs.Variables.{as_member, members_for};

use crate::end::end_of;
use crate::members::few_members;
use crate::state_variables::StateVariable;
use pb_model_tree::Model;
use pb_protocol_packing::MAX_GROUP_VALUES;
use std::alloc::{AllocError, Global};

/// How many groups there are at most.
const GROUPS: usize = 8;

/// How many variables each group has where their numbers differ by one at most.
#[tactic(auto, using(std::proofs::lemmas::List::replicate_more, std::proofs::lemmas::List::append_assoc))]
fn even_sizes(alloc: Global, count: usize) -> Result<Vec<usize>, AllocError>
    ensures { IfOk result (λ v. v.items ≡ packing.even_sizes count) }
{
    let mut sizes = Vec::new(alloc);
    for _ in 0..count % GROUPS {
        sizes.push(count / GROUPS + 1)?;
    }
    for _ in 0..GROUPS - count % GROUPS {
        sizes.push(count / GROUPS)?;
    }
    Ok(sizes)
}

/// Whether variables that are to be a group have few values together: one alone stays as it is.
fn makes_few(
    alloc: Global,
    model: &Model,
    variables: &[StateVariable<'_>],
) -> Result<bool, AllocError>
    ensures { IfOk result
        (λ b. b ≡ packing.makes_few (members_for (model_of model.now) variables.now)) }
{
    if variables.len() < 2 {
        return Ok(true);
    }
    let members = few_members(alloc, model, variables)?;
    Ok(members.is_some())
}

/// Whether groups of so many variables have few values each.
fn make_few(
    alloc: Global,
    model: &Model,
    variables: &[StateVariable<'_>],
    sizes: &[usize],
) -> Result<bool, AllocError>
    ensures { IfOk result (λ b. b ≡ list_all packing.makes_few
        (cut_into_groups sizes.now (members_for (model_of model.now) variables.now))) }
{
    let mut first = 0;
    for size in sizes {
        let end = first + (variables.len() - first).min(*size);
        if !makes_few(alloc, model, &variables[first..end])? {
            return Ok(false);
        }
        first = end;
    }
    Ok(true)
}

/// How many values a variable has.
fn value_count(model: &Model, variable: &StateVariable<'_>) -> u64
    ensures { result ≡ (as_member (model_of model.now) variable.now).size }
{
    end_of(model, variable.sort).size()
}

/// How many variables can stand in a group behind ones that have so many values together.
fn fitting(model: &Model, values: u64, variables: &[StateVariable<'_>]) -> usize
    ensures fitting { result
        ≡ packing.fitting values (members_for (model_of model.now) variables.now) }
    ensures within { result ≤ length variables.now }
{
    let mut together = values;
    for index in 0..variables.len() {
        let own = value_count(model, &variables[index]);
        let more = u128::from(together) * u128::from(own);
        if more > u128::from(MAX_GROUP_VALUES) {
            return index;
        }
        together = more as u64;
    }
    variables.len()
}

/// How many variables each group has where as many are in it as can be, and all that are left in
/// the last.
fn fitting_sizes(
    alloc: Global,
    model: &Model,
    variables: &[StateVariable<'_>],
) -> Result<Vec<usize>, AllocError>
    ensures { IfOk result (λ v. v.items
        ≡ packing.fitting_sizes 7 (members_for (model_of model.now) variables.now)) }
{
    let mut sizes = Vec::new(alloc);
    let mut first = 0;
    for _ in 1..GROUPS {
        if first == variables.len() {
            return Ok(sizes);
        }
        let own = value_count(model, &variables[first]);
        let count = fitting(model, own, &variables[first + 1..]);
        sizes.push(count + 1)?;
        first += count + 1;
    }
    if first < variables.len() {
        sizes.push(variables.len() - first)?;
    }
    Ok(sizes)
}

/// How many variables each group has, of consecutive ones: at most eight groups, as even as can be,
/// and where one of these would have too many values with as many variables in each as can be.
///
/// # Errors
/// Memory was refused.
pub(crate) fn group_sizes(
    alloc: Global,
    model: &Model,
    variables: &[StateVariable<'_>],
) -> Result<Vec<usize>, AllocError>
    ensures { IfOk result
        (λ v. v.items ≡ packing.group_sizes (members_for (model_of model.now) variables.now)) }
{
    let even = even_sizes(alloc, variables.len())?;
    if make_few(alloc, model, variables, &even)? {
        return Ok(even);
    }
    drop(even);
    fitting_sizes(alloc, model, variables)
}
