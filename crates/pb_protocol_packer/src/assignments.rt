//! What a step assigns to the variables of groups.

ghost use Rattle.std.specs.Prelude.{◌≡◌, ◌++◌, [], ◌∷◌, IfOk, OnOk};
ghost use Rattle.std.specs.List.{list_any};
ghost use Rattle.std.specs.Option.{option_map};
ghost use Rattle.pb_model_meaning.specs.Steps.{assigned_term};
ghost use Rattle.pb_protocol_packing.specs.Packing as packing;
ghost use Rattle.pb_protocol_packer.specs.View.{term_of, name_bytes};
ghost use Rattle.pb_protocol_packer.specs.Members.{members_said};
ghost use Rattle.pb_protocol_packer.specs.Groups.{group_of, groups_in};
ghost use Rattle.pb_protocol_packer.specs.Given.{given_in, is_given};
ghost use Rattle.pb_protocol_packer.specs.Steps.{assignments_in};

use crate::builder::Builder;
use crate::given::{Given, given_for};
use crate::group::Group;
use crate::group_number::joined_term;
use crate::member::Member;
use pb_base::both;
use pb_model_tree::Assignment;
use pb_text_tree::{Argument, Name, Term, copy_name, copy_term};
use std::alloc::AllocError;

/// Whether one of the variables gets a term.
fn is_any_given(given: &[Given<'_>], members: &[Member]) -> bool
    ensures { result ≡ list_any (is_given (assigned_term (given_in given.now)))
        (members_said members.now) }
{
    for member in members {
        if given_for(given, &member.variable.name.text).is_some() {
            return true;
        }
    }
    false
}

/// The term that the variable of a group gets, if one of the group's variables gets one.
fn group_term(
    builder: Builder,
    given: &[Given<'_>],
    group: &Group,
) -> Result<Option<Term>, AllocError>
    ensures { IfOk result (λ o. option_map term_of o
        ≡ packing.group_term (assigned_term (given_in given.now)) (group_of group.now)) }
{
    match group {
        Group::Alone(variable) => match given_for(given, &variable.name.text) {
            None => Ok(None),
            Some(term) => Ok(Some(copy_term(builder.alloc, term)?)),
        },
        Group::Joined(joined) => {
            if !is_any_given(given, &joined.members) {
                return Ok(None);
            }
            let number = builder.name(&joined.variable.name)?;
            Ok(Some(joined_term(builder, given, number, joined)?))
        }
    }
}

/// The name of a group's variable.
fn name_of(group: &Group) -> &Name
    ensures { name_bytes result.now ≡ (packing.variable_of (group_of group.now)).name }
{
    match group {
        Group::Alone(variable) => &variable.name,
        Group::Joined(joined) => &joined.variable.name,
    }
}

/// Adds the assignment to the variable of a group, where it gets a term.
fn push_assignment(
    assignments: &mut Vec<Assignment>,
    builder: Builder,
    given: &[Given<'_>],
    group: &Group,
) -> Result<(), AllocError>
    ensures { OnOk result (assignments_in assignments.new.items
        ≡ assignments_in assignments.old.items
        ++ packing.assignments_of (assigned_term (given_in given.now))
        (group_of group.now ∷ [])) }
{
    if let Some(term) = group_term(builder, given, group)? {
        let (term, variable) = both(term, copy_name(builder.alloc, name_of(group)))?;
        let place = builder.place;
        assignments.push(Assignment {
            variable,
            value: Argument { place, term },
        })?;
    }
    Ok(())
}

/// What is assigned to the variables of groups.
pub(crate) fn assignments_of(
    builder: Builder,
    given: &[Given<'_>],
    groups: &[Group],
) -> Result<Vec<Assignment>, AllocError>
    ensures { IfOk result (λ v. assignments_in v.items
        ≡ packing.assignments_of (assigned_term (given_in given.now)) (groups_in groups.now)) }
{
    let mut assignments = Vec::new(builder.alloc);
    for group in groups {
        push_assignment(&mut assignments, builder, given, group)?;
    }
    Ok(assignments)
}
