//! The variables of a group of several, and what each of them counts in the group's number.

ghost use Rattle.std.specs.Prelude.{◌≡◌, ◌≤◌, ◌<◌, map, true, false, length, IfOk, MatchOption};
ghost use Rattle.pb_model_meaning.specs.Erase.{model_of};
ghost use Rattle.pb_protocol_packing.specs.declared.limits.TheConstants.{MAX_GROUP_VALUES};
ghost use Rattle.pb_protocol_packing.specs.Packing as packing;
ghost use Rattle.pb_protocol_packing.specs.Sizes.{are_few, is_few};
ghost use Rattle.pb_protocol_packer.specs.Members.{are_weighted, member_of, members_said};
ghost use Rattle.pb_protocol_groups.specs.Ends.{carrier_at, member_at};
ghost use Rattle.pb_protocol_groups.specs.Variables.{members_for, variable_of_state};

use crate::end::{End, end_of};
use crate::state_variables::StateVariable;
use pb_model_tree::Model;
use pb_protocol_packer::{Member, Variable};
use pb_protocol_packing::MAX_GROUP_VALUES;
use pb_text_tree::copy_name;
use std::alloc::{AllocError, Global};

/// Variables with what each counts, which have some values together and not too many.
#[derive(Drop)]
pub(crate) struct Members {
    pub items: Vec<Member>,
    pub capacity: u32,
    ghost weighted: { are_weighted items.items ≡ true },
    ghost some: { 0 < capacity },
    ghost few: { capacity ≤ MAX_GROUP_VALUES },
    ghost counted: { capacity ≡ packing.capacity (members_said items.items) },
}

/// The number, if it isn't 0 and not above the limit.
fn few(number: u64) -> Option<u32>
    ensures { MatchOption result (is_few number ≡ false)
        (λ n. (n ≡ number) × (0 < n) × (n ≤ MAX_GROUP_VALUES)) }
{
    if number == 0 || number > u64::from(MAX_GROUP_VALUES) {
        return None;
    }
    Some(number as u32)
}

/// A variable as a member, where its sort's chain has this end.
fn as_member(
    alloc: Global,
    variable: &StateVariable<'_>,
    end: &End<'_>,
    size: u32,
    weight: u32,
) -> Result<Member, AllocError>
    requires { size ≡ length (carrier_at end.now) }
    ensures member { IfOk result
        (λ m. member_of m ≡ member_at end.now (variable_of_state variable.now)) }
    ensures weight { IfOk result (λ m. m.weight ≡ weight) }
{
    let name = copy_name(alloc, variable.name)?;
    let sort = copy_name(alloc, variable.sort)?;
    Ok(Member {
        variable: Variable { name, sort },
        kind: end.kind(alloc)?,
        low: end.low(),
        size,
        weight,
    })
}

/// The variables as members, if they have few values together.
pub(crate) fn few_members(
    alloc: Global,
    model: &Model,
    variables: &[StateVariable<'_>],
) -> Result<Option<Members>, AllocError>
    ensures { IfOk result (λ found. MatchOption found
        (are_few (members_for (model_of model.now) variables.now) ≡ false)
        (λ m. members_said m.items.items ≡ members_for (model_of model.now) variables.now)) }
{
    let mut items = Vec::new(alloc);
    let mut capacity: u32 = 1;
    for index in (0..variables.len()).rev() {
        let variable = &variables[index];
        let end = end_of(model, variable.sort);
        let Some(size) = few(end.size()) else {
            return Ok(None);
        };
        let Some(larger) = few(u64::from(size) * u64::from(capacity)) else {
            return Ok(None);
        };
        items.insert(0, as_member(alloc, variable, &end, size, capacity)?)?;
        capacity = larger;
    }
    Ok(Some(Members { items, capacity }))
}
