//! Which steps with their values are in a set of steps.

ghost use Rattle.std.specs.Prelude.{◌≡◌, [], ◌∷◌, map, IfOk};
ghost use Rattle.std.specs.List.{list_any};
ghost use Rattle.pb_base.specs.OrMemory.{IfRefused};
ghost use Rattle.pb_protocol_tree.specs.Form.{step_set_form, step_value_form};
ghost use Rattle.pb_protocol_meaning.specs.Erase.{erased_steps, erased_value};
ghost use Rattle.pb_protocol_unfolder_terms.specs.Values.{written_term};
ghost use Rattle.pb_protocol_unfolder_steps.specs.Elements.{instance_said};
ghost use Rattle.pb_protocol_unfolder_steps.specs.Unfolder.{protocol_in, scope_within};
ghost use Rattle.pb_protocol_unfolder.specs.Faults.{IsFaultOfSet, IsFaultOfValue, IsFaultOfValues};
ghost use Rattle.pb_protocol_unfolder.specs.Parts.{IsFaultIn, IsFaultOfSets};
ghost use Rattle.pb_protocol_unfolder.specs.Values.{are_values, is_member, is_value};
ghost use Rattle.pb_protocol_unfolder.specs.View.{set_operand};

use crate::fault::UnfoldingError;
use crate::value::{value_in_set, value_of_written};
use crate::value_scope::ValueScope;
use pb_protocol_tree::{StepSet, StepSetLink, StepValue};
use pb_protocol_unfolder_steps::{Instance, Unfolder};
use pb_protocol_unfolder_terms::Written;

/// Whether a step's own value is the one that is named, if one is.
fn is_value(
    unfolder: &Unfolder<'_, '_>,
    scope: &ValueScope<'_>,
    named: &StepValue,
    own: Written<'_>,
) -> Result<bool, UnfoldingError>
    ensures value { IfOk result (λ is. is ≡ is_value unfolder.now scope.now.names
        (erased_value (step_value_form named.now)) (written_term own.entry)) }
    ensures refused { IfRefused result (IsFaultIn (IsFaultOfValue (protocol_in unfolder.now)
        (scope_within unfolder.now scope.now.names) (written_term own.entry ∷ [])
        (step_value_form named.now))) }
{
    match named {
        StepValue::Any { .. } => Ok(true),
        StepValue::Value(argument) => {
            let value = value_in_set(unfolder, scope, argument.place, &argument.term)?;
            let own = value_of_written(unfolder, argument.place, own)?;
            Ok(value == own)
        }
    }
}

/// Whether a step's own values are those that are named.
fn are_values(
    unfolder: &Unfolder<'_, '_>,
    scope: &ValueScope<'_>,
    named: &[StepValue],
    own: &[Written<'_>],
) -> Result<bool, UnfoldingError>
    ensures values { IfOk result (λ are. are ≡ are_values unfolder.now scope.now.names
        (map erased_value (map step_value_form named.now)) (map written_term own.now)) }
    ensures refused { IfRefused result (IsFaultIn (IsFaultOfValues (protocol_in unfolder.now)
        (scope_within unfolder.now scope.now.names) (map written_term own.now)
        (map step_value_form named.now))) }
{
    for place in 0..named.len().min(own.len()) {
        if !is_value(unfolder, scope, &named[place], own[place])? {
            return Ok(false);
        }
    }
    Ok(named.len() == own.len())
}

#[cycle(members)]
fn is_in_some(
    unfolder: &Unfolder<'_, '_>,
    scope: &ValueScope<'_>,
    links: &[StepSetLink],
    instance: &Instance<'_>,
) -> Result<bool, UnfoldingError>
    ensures member { IfOk result (λ is. is ≡ list_any
        (is_member unfolder.now scope.now.names (instance_said instance.now))
        (map set_operand links.now)) }
    ensures refused { IfRefused result (IsFaultIn (IsFaultOfSets (protocol_in unfolder.now)
        (scope_within unfolder.now scope.now.names) (instance_said instance.now).own
        (map set_operand links.now))) }
{
    for link in links {
        if is_in_set(unfolder, scope, &link.operand, instance)? {
            return Ok(true);
        }
    }
    Ok(false)
}

/// Whether a step with its values is in a set.
#[cycle(members)]
pub(crate) fn is_in_set(
    unfolder: &Unfolder<'_, '_>,
    scope: &ValueScope<'_>,
    set: &StepSet,
    instance: &Instance<'_>,
) -> Result<bool, UnfoldingError>
    ensures member { IfOk result (λ is. is ≡ is_member unfolder.now scope.now.names
        (instance_said instance.now) (step_set_form set.now)) }
    ensures refused { IfRefused result (IsFaultIn (IsFaultOfSet (protocol_in unfolder.now)
        (scope_within unfolder.now scope.now.names) (instance_said instance.now).own
        (step_set_form set.now))) }
{
    match set {
        StepSet::All { .. } => Ok(true),
        StepSet::Step(step) => Ok(step.text.as_str() == instance.step.name.text.as_str()),
        StepSet::Instances { step, values } => {
            if step.text.as_str() != instance.step.name.text.as_str() {
                return Ok(false);
            }
            are_values(unfolder, scope, values, &instance.own)
        }
        StepSet::Complement { operand, .. } => {
            let is_in = is_in_set(unfolder, scope, operand, instance)?;
            Ok(!is_in)
        }
        StepSet::Union { first, links } => {
            if is_in_set(unfolder, scope, first, instance)? {
                return Ok(true);
            }
            is_in_some(unfolder, scope, links, instance)
        }
    }
}
