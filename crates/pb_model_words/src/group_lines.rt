//! How the numbers of packed groups are made of the values of their variables, for whoever reads
//! the text of a packed model.

ghost use Rattle.std.specs.Prelude.{◌≡◌, ◌++◌, OnOk, string_bytes, [], ◌∷◌, codes, map, drop, true};
ghost use Rattle.pb_protocol_packing.specs.Packing as packing;
ghost use Rattle.pb_protocol_packer.specs.Groups.{group_of, groups_in};
ghost use Rattle.pb_protocol_packer.specs.Members.{are_weighted, members_said, syntax_variable};
ghost use Rattle.pb_model_words.specs.GroupLines.{counted_text, group_line, group_lines, line_of};
ghost use Rattle.pb_model_words.specs.GroupLines.{lines_of, summands, times_text, variable_count};
ghost use Rattle.pb_model_words.specs.Words.{marked};
ghost use Rattle.pb_model_words.specs.View.{variable_said, vocabulary_of};

use crate::values::push_mark;
use crate::variables::Variable;
use crate::vocabulary::Vocabulary;
use pb_protocol_packer::{Group, Joined, Member};
use std::alloc::AllocError;

/// A variable whose values are counted from the lowest one.
fn push_counted(text: &mut String, name: &str, low: i32) -> Result<(), AllocError>
    ensures { OnOk result
        (string_bytes text.new ≡ string_bytes text.old ++ counted_text name.now low) }
{
    let low = i64::from(low);
    if low == 0 {
        text.push_str(name)
    } else if low > 0 {
        write!(text, "({name} - {low})")
    } else {
        let above = -low;
        write!(text, "({name} + {above})")
    }
}

fn push_factor(text: &mut String, weight: u32) -> Result<(), AllocError>
    ensures { OnOk result (string_bytes text.new ≡ times_text (string_bytes text.old) weight) }
{
    if weight == 1 {
        Ok(())
    } else {
        write!(text, " * {weight}")
    }
}

/// What a variable adds to the number of its group.
fn push_summand(
    text: &mut String,
    variable: &Variable<'_>,
    member: &Member,
) -> Result<(), AllocError>
    ensures { OnOk result (string_bytes text.new ≡ string_bytes text.old
        ++ times_text (counted_text variable.now.name.now member.now.low) member.now.weight) }
{
    push_counted(text, variable.name, member.low)?;
    push_factor(text, member.weight)
}

fn push_sum(
    text: &mut String,
    members: &[Member],
    variables: &[Variable<'_>],
) -> Result<(), AllocError>
    requires { are_weighted members.now ≡ true }
    ensures { OnOk result (string_bytes text.new ≡ string_bytes text.old ++ marked []
        (codes " + ") (summands (map variable_said variables.now) (members_said members.now))) }
{
    let mut is_first = true;
    for k in 0..variables.len().min(members.len()) {
        push_mark(text, is_first, "", " + ")?;
        push_summand(text, &variables[k], &members[k])?;
        is_first = false;
    }
    Ok(())
}

fn push_line(
    text: &mut String,
    joined: &Joined,
    variables: &[Variable<'_>],
) -> Result<(), AllocError>
    ensures { OnOk result (string_bytes text.new ≡ string_bytes text.old
        ++ group_line (syntax_variable joined.now.variable) (members_said joined.now.members.items)
        (map variable_said variables.now)) }
{
    text.push_str(joined.variable.name.text.as_str())?;
    text.push_str(" = ")?;
    push_sum(text, &joined.members, variables)?;
    text.push_str("\n")
}

fn push_group(
    text: &mut String,
    group: &Group,
    variables: &[Variable<'_>],
) -> Result<(), AllocError>
    ensures { OnOk result (string_bytes text.new ≡ string_bytes text.old
        ++ line_of (group_of group.now) (map variable_said variables.now)) }
{
    match group {
        Group::Alone(_) => Ok(()),
        Group::Joined(joined) => push_line(text, joined, variables),
    }
}

/// How many variables there are in a group.
fn variable_count(group: &Group) -> usize
    ensures { result ≡ variable_count (group_of group.now) }
{
    match group {
        Group::Alone(_) => 1,
        Group::Joined(joined) => joined.members.len(),
    }
}

/// The variables behind those of a group.
fn behind<'a, 'b>(variables: &'a [Variable<'b>], group: &Group) -> &'a [Variable<'b>]
    ensures { map variable_said result.now
        ≡ drop (variable_count (group_of group.now)) (map variable_said variables.now) }
{
    &variables[variable_count(group).min(variables.len())..]
}

fn push_lines(
    text: &mut String,
    groups: &[Group],
    variables: &[Variable<'_>],
) -> Result<(), AllocError>
    ensures { OnOk result (string_bytes text.new ≡ string_bytes text.old
        ++ lines_of (groups_in groups.now) (map variable_said variables.now)) }
{
    let mut variables = variables;
    for group in groups {
        push_group(text, group, variables)?;
        variables = behind(variables, group);
    }
    Ok(())
}

/// Puts behind a text, for each group of several variables that are packed, a line that says how
/// its number is made of their values: `line' = line(c1) * 25 + (n - 1) * 5 + line(c2)`. There an
/// enumerator counts as its place in its sort, from 0 on, and a truth value as 0 or 1. Nothing is
/// written where no variables are packed.
///
/// # Errors
/// Memory was refused.
pub fn push_group_lines(text: &mut String, vocabulary: &Vocabulary<'_>) -> Result<(), AllocError>
    ensures { OnOk result (string_bytes text.new
        ≡ string_bytes text.old ++ group_lines (vocabulary_of vocabulary.now)) }
{
    match vocabulary.groups {
        None => Ok(()),
        Some(groups) => push_lines(text, groups, &vocabulary.variables),
    }
}
