//! The groups of a model's state variables.

ghost use Rattle.std.specs.Prelude.{◌≡◌, ◌∷◌, ◌++◌, [], codes, IfOk, OnOk, MatchResult, List};
ghost use Rattle.pb_model_tree.specs.Form.{model_form};
ghost use Rattle.pb_model_meaning.specs.Erase.{model_of};
ghost use Rattle.pb_typing_declarations.specs.Faults.{unless, IsAmong};
ghost use Rattle.pb_typing_declarations.specs.declared.fault.TypingRule.TheVariants.{Limit};
ghost use Rattle.pb_protocol_packing.specs.Groups as packing;
ghost use Rattle.pb_protocol_packing.specs.Groups.{named_groups};
ghost use Rattle.pb_protocol_packing.specs.Packing.{Member};
ghost use Rattle.pb_protocol_packing.specs.Sizes.{makes_few};
ghost use Rattle.pb_protocol_packer.specs.Groups.{groups_in};
ghost use Rattle.pb_protocol_packer.specs.Members as members;
ghost use Rattle.pb_protocol_groups.specs.Sizes.{size_faults};
ghost use Rattle.pb_protocol_groups.specs.Taken.{taken_of};
ghost use Rattle.pb_protocol_groups.specs.Groups.{named_variable};
ghost use Rattle.pb_protocol_groups.specs.Variables.{members_for, variable_of_state};

use crate::counts::group_sizes;
use crate::members::few_members;
use crate::model_names::names_in;
use crate::state_variables::{StateVariable, state_variables};
use crate::taken::Taken;
use pb_model_tree::Model;
use pb_protocol_packer::{Group, Joined, Variable};
use pb_text_tree::copy_name;
use pb_typing_declarations::{TypeError, TypingFault, TypingRule};
use std::alloc::{AllocError, Global};

/// The variable that a group of several becomes.
fn group_variable(
    alloc: Global,
    names: &mut Taken<'_>,
    first: &StateVariable<'_>,
) -> Result<Variable, AllocError>
    ensures variable { IfOk result (λ x. members.syntax_variable x ≡ named_variable
        (packing.unused_name (taken_of names.old)
        ((variable_of_state first.now).name ++ codes "'"))) }
    ensures taken { OnOk result (taken_of names.new ≡ packing.unused_name (taken_of names.old)
        ((variable_of_state first.now).name ++ codes "'") ∷ taken_of names.old) }
{
    let name = names.unused(alloc, first.name)?;
    names.take(alloc, &name)?;
    let sort = copy_name(alloc, &name)?;
    Ok(Variable { name, sort })
}

/// The groups so far, and the names that are taken.
#[derive(Drop)]
struct Grouping<'a> {
    names: Taken<'a>,
    groups: Vec<Group>,
}

impl Grouping<'_> {
    ghost use Rattle.pb_protocol_groups.specs.Groups.{grouped_behind};

    /// Adds the group of these variables, if there are any.
    fn push(
        &mut self,
        alloc: Global,
        model: &Model,
        variables: &[StateVariable<'_>],
    ) -> Result<(), TypeError>
        ensures made { OnOk result ((others : List (List Member)) → grouped_behind self.new others
            ≡ grouped_behind self.old (members_for (model_of model.now) variables.now ∷ others)) }
        ensures few { MatchResult result
            (λ _. unless (makes_few (members_for (model_of model.now) variables.now)) Limit
            model.now.initial.place ≡ [])
            (IsAmong (unless (makes_few (members_for (model_of model.now) variables.now)) Limit
            model.now.initial.place)) }
    {
        let Some((first, others)) = variables.split_first() else {
            return Ok(());
        };
        if others.is_empty() {
            let name = copy_name(alloc, first.name)?;
            let sort = copy_name(alloc, first.sort)?;
            self.groups.push(Group::Alone(Variable { name, sort }))?;
            return Ok(());
        }
        let Some(members) = few_members(alloc, model, variables)? else {
            return Err(TypeError::Refused(TypingFault {
                rule: TypingRule::Limit,
                place: model.initial.place,
            }));
        };
        let variable = group_variable(alloc, &mut self.names, first)?;
        self.groups.push(Group::Joined(Joined {
            variable,
            members: members.items,
            capacity: members.capacity,
        }))?;
        Ok(())
    }
}

/// The groups of a model's state variables: at most eight, of consecutive variables.
///
/// # Errors
/// A group has no values, or too many: T12, at `init`. Or memory was refused.
pub(crate) fn groups_of(alloc: Global, model: &Model) -> Result<Vec<Group>, TypeError>
    ensures groups { IfOk result
        (λ v. groups_in v.items ≡ packing.groups_of (model_of model.now)) }
    ensures few { MatchResult result (λ _. size_faults (model_form model.now) ≡ [])
        (IsAmong (size_faults (model_form model.now))) }
{
    let declared = names_in(alloc, model)?;
    let given = Vec::new(alloc);
    let names = Taken { given, declared };
    let groups = Vec::new(alloc);
    let mut grouping = Grouping { names, groups };
    let variables = state_variables(alloc, &model.state)?;
    let sizes = group_sizes(alloc, model, &variables)?;
    let mut first = 0;
    for size in &sizes {
        let end = first + (variables.len() - first).min(*size);
        grouping.push(alloc, model, &variables[first..end])?;
        first = end;
    }
    Ok(grouping.groups)
}
