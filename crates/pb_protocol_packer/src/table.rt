//! The digits that stand for the variables of groups.

ghost use Rattle.std.specs.Prelude.{◌≡◌, [], IfOk, OnOk};
ghost use Rattle.pb_protocol_packing.specs.Packing.{with_group, with_groups, with_members};
ghost use Rattle.pb_protocol_packer.specs.View.{term_of};
ghost use Rattle.pb_protocol_packer.specs.Members.{members_said};
ghost use Rattle.pb_protocol_packer.specs.Groups.{group_of, groups_in};
ghost use Rattle.pb_protocol_packer.specs.Scopes.{table_of};

use crate::builder::Builder;
use crate::group::{Group, Joined};
use crate::radix::between;
use crate::scope::{Digit, Known};
use pb_text_tree::{Term, copy_term};
use std::alloc::{AllocError, Global};

/// Puts the digits of a group in front, whose number is that of a term.
fn put_members<'a>(
    table: &mut Vec<Known<'a>>,
    builder: Builder,
    number: &Term,
    joined: &'a Joined,
) -> Result<(), AllocError>
    ensures { OnOk result (table_of table.new.items
        ≡ with_members joined.now.capacity (term_of number.now)
        (members_said joined.now.members.items) (table_of table.old.items)) }
{
    let mut end = joined.capacity;
    for member in &joined.members {
        let number = copy_term(builder.alloc, number)?;
        let term = between(builder, joined.capacity, end, member.weight, number)?;
        table.insert(
            0,
            Known {
                name: &member.variable.name,
                digit: Some(Digit { member, term }),
            },
        )?;
        end = member.weight;
    }
    Ok(())
}

/// Puts what stands for the variables of a group in front.
fn put_group<'a>(
    table: &mut Vec<Known<'a>>,
    alloc: Global,
    group: &'a Group,
) -> Result<(), AllocError>
    ensures { OnOk result (table_of table.new.items
        ≡ with_group (group_of group.now) (table_of table.old.items)) }
{
    match group {
        Group::Alone(variable) => {
            table.insert(
                0,
                Known {
                    name: &variable.name,
                    digit: None,
                },
            )?;
            Ok(())
        }
        Group::Joined(joined) => {
            let builder = Builder {
                alloc,
                place: joined.variable.name.place,
            };
            let number = builder.name(&joined.variable.name)?;
            put_members(table, builder, &number, joined)
        }
    }
}

/// What stands for the variables of all groups.
pub(crate) fn known_variables(alloc: Global, groups: &[Group]) -> Result<Vec<Known<'_>>, AllocError>
    ensures { IfOk result (λ v. table_of v.items ≡ with_groups (groups_in groups.now) []) }
{
    let mut table = Vec::new(alloc);
    for group in groups {
        put_group(&mut table, alloc, group)?;
    }
    Ok(table)
}
