//! From a state in which variables are packed in groups to the values of the variables.

ghost use Rattle.std.specs.Prelude.{◌≡◌, ◌++◌, ◌^◌, ◌<ℤ◌, pos, [], ◌∷◌, IfOk, OnOk};
ghost use Rattle.std.specs.Prelude.{slice_index_or};
ghost use Rattle.pb_protocol_packing.specs.Packing as packing;
ghost use Rattle.pb_protocol_packing.specs.Unpacked.{unpacked};
ghost use Rattle.pb_protocol_packer.specs.Groups.{group_of, groups_in};
ghost use Rattle.pb_protocol_packer.specs.Members.{members_said, syntax_variable};
ghost use Rattle.pb_model_words.specs.States.{is_below, group_number_after, numbers_after};

use pb_protocol_packer::{Group, Joined, unpack};
use std::alloc::{AllocError, Global};

fn is_below(count: u32, value: i64) -> bool
    ensures { result ≡ is_below count value }
{
    0 <= value && value < i64::from(count)
}

/// The number of a group after a move: where its value is none, the one before, or 0.
fn number_after(joined: &Joined, before: i64, after: i64) -> i64
    ensures number { result ≡ group_number_after (packing.Group.Joined (syntax_variable
        joined.now.variable) (members_said joined.now.members.items)) before after }
    ensures small { result <ℤ pos (2 ^ 32) }
{
    if is_below(joined.capacity, after) {
        after
    } else if is_below(joined.capacity, before) {
        before
    } else {
        0
    }
}

/// The value at a place; where there is none, 0.
fn value_at(values: &[i64], place: usize) -> i64
    ensures { result ≡ slice_index_or values.now place (pos 0) }
{
    values.get(place).copied().unwrap_or(0)
}

/// Adds the values of a group's variables after a move.
fn push_values(
    state: &mut Vec<i64>,
    group: &Group,
    before: i64,
    after: i64,
) -> Result<(), AllocError>
    ensures { OnOk result (state.new.items ≡ state.old.items
        ++ unpacked (group_of group.now ∷ [])
        (group_number_after (group_of group.now) before after ∷ [])) }
{
    match group {
        Group::Alone(_) => Ok(state.push(after)?),
        Group::Joined(joined) => {
            let number = number_after(joined, before, after);
            unpack(
                state,
                std::slice::from_ref(group),
                std::slice::from_ref(&number),
            )
        }
    }
}

/// The values of all groups' variables after a move, from the groups' values before it and after.
///
/// # Errors
/// Memory was refused.
pub(crate) fn unpacked_after(
    alloc: Global,
    groups: &[Group],
    before: &[i64],
    after: &[i64],
) -> Result<Vec<i64>, AllocError>
    ensures { IfOk result (λ v. v.items ≡ unpacked (groups_in groups.now)
        (numbers_after (groups_in groups.now) before.now after.now)) }
{
    let mut state = Vec::new(alloc);
    for k in 0..groups.len().min(after.len()) {
        push_values(&mut state, &groups[k], value_at(before, k), after[k])?;
    }
    Ok(state)
}
