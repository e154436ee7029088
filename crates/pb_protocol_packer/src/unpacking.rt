//! From a state of the packed model to the state of the model that it stands for.

ghost use Rattle.std.specs.Prelude.{◌≡◌, ◌++◌, true, OnOk, All, ◌<ℤ◌, pos, ◌^◌};
ghost use Rattle.pb_protocol_packing.specs.Unpacked.{digits, unpacked};
ghost use Rattle.pb_protocol_packer.specs.Members.{are_weighted, members_said};
ghost use Rattle.pb_protocol_packer.specs.Groups.{group_of, groups_in, values_at};

use crate::group::Group;
use crate::member::Member;
use std::alloc::AllocError;

/// Adds the values of a group's variables at its number.
fn push_digits(state: &mut Vec<i64>, members: &[Member], number: u32) -> Result<(), AllocError>
    requires { are_weighted members.now ≡ true }
    ensures { OnOk result
        (state.new.items ≡ state.old.items ++ digits (members_said members.now) number) }
{
    let mut left = number;
    for member in members {
        state.push(i64::from(member.low) + i64::from(left / member.weight))?;
        left %= member.weight;
    }
    Ok(())
}

/// Adds the values of a group's variables where its variable has a value.
fn push_values(state: &mut Vec<i64>, group: &Group, value: i64) -> Result<(), AllocError>
    requires { value <ℤ pos (2 ^ 32) }
    ensures { OnOk result
        (state.new.items ≡ state.old.items ++ values_at (group_of group.now) value) }
{
    match group {
        Group::Alone(_) => Ok(state.push(value)?),
        Group::Joined(joined) => {
            let number = u32::try_from(value).unwrap_or(0);
            push_digits(state, &joined.members, number)
        }
    }
}

/// Adds the values of the model's variables at a state of the packed model.
///
/// # Errors
/// Memory was refused.
pub fn unpack(state: &mut Vec<i64>, groups: &[Group], packed: &[i64]) -> Result<(), AllocError>
    requires { All (λ v. v <ℤ pos (2 ^ 32)) packed.now }
    ensures { OnOk result
        (state.new.items ≡ state.old.items ++ unpacked (groups_in groups.now) packed.now) }
{
    for index in 0..groups.len() {
        let Some(value) = packed.get(index) else {
            return Ok(());
        };
        push_values(state, &groups[index], *value)?;
    }
    Ok(())
}
