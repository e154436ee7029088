//! The steps of a protocol: those that stay whole, and those with written values for their own
//! variables.

ghost use Rattle.std.specs.Prelude.{◌≡◌, ◌≤◌, ◌+◌, ◌++◌, [], ◌∷◌, length, map, IfOk, OnOk};
ghost use Rattle.std.specs.Prelude.{string_bytes};
ghost use Rattle.pb_base.specs.OrMemory.{IfRefused};
ghost use Rattle.pb_protocol_tree.specs.Form.{protocol_form, step_form};
ghost use Rattle.pb_protocol_meaning.specs.Erase.{protocol_of};
ghost use Rattle.pb_protocol_unfolding.specs.Unfolding as definitions;
ghost use Rattle.pb_protocol_unfolder_terms.specs.Values.{tuple_of};
ghost use Rattle.pb_protocol_unfolder_steps.specs.Elements.{instance_at, instance_said, whole_at};
ghost use Rattle.pb_protocol_unfolder_steps.specs.Elements.{instances_of_step, instances_of_steps};
ghost use Rattle.pb_protocol_unfolder_steps.specs.StepFaults.{forms_of_step, forms_of_steps, placed_instance};
ghost use Rattle.pb_protocol_unfolder_steps.specs.StepFaults.{placed_at, placed_whole};
ghost use Rattle.pb_protocol_unfolder_steps.specs.Refusals.{IsPassed, IsPassedIn, instance_place};
ghost use Rattle.pb_protocol_unfolder_steps.specs.Refusals.{instance_places, each_at, places_of_step};
ghost use Rattle.pb_protocol_unfolder_steps.specs.Refusals.{places_of_steps};
ghost use Rattle.pb_protocol_unfolder_steps.specs.Written.{AreInstancesOf};

use crate::fault::StepsError;
use crate::limits::{MAX_WRITTEN_STEPS, check_limit};
use crate::sorts::sorts_of;
use crate::tuples::all_tuples;
use crate::whole::WholeSteps;
use pb_protocol_tree::Step;
use pb_protocol_unfolder_terms::{Written, element_name};
use pb_text_tree::Name;
use std::alloc::{AllocError, Global};

/// A step that stays whole, or one with a written value for each of its own variables.
#[derive(Drop)]
pub struct Instance<'a> {
    pub step: &'a Step,
    /// Whether the step stays whole; it has no values then.
    pub whole: bool,
    pub own: Vec<Written<'a>>,
}

/// Adds a step with each of these tuples of values.
fn push_with<'a>(
    instances: &mut Vec<Instance<'a>>,
    step: &'a Step,
    tuples: Vec<Vec<Written<'a>>>,
) -> Result<(), AllocError>
    ensures instances { OnOk result (map instance_said instances.new.items
        ≡ map instance_said instances.old.items
        ++ map (instance_at step.now) (map tuple_of tuples.entry.items)) }
    ensures places { OnOk result (map instance_place instances.new.items
        ≡ map instance_place instances.old.items
        ++ each_at step.now.name.place tuples.entry.items) }
    ensures forms { OnOk result (map placed_instance instances.new.items
        ≡ map placed_instance instances.old.items
        ++ map (placed_at (step_form step.now)) (map tuple_of tuples.entry.items)) }
{
    for own in tuples {
        instances.push(Instance {
            step,
            whole: false,
            own,
        })?;
    }
    Ok(())
}

/// Adds a step that stays whole.
fn push_whole<'a>(
    instances: &mut Vec<Instance<'a>>,
    step: &'a Step,
    alloc: Global,
) -> Result<(), AllocError>
    ensures instances { OnOk result (map instance_said instances.new.items
        ≡ map instance_said instances.old.items ++ whole_at step.now ∷ []) }
    ensures places { OnOk result (map instance_place instances.new.items
        ≡ map instance_place instances.old.items ++ step.now.name.place ∷ []) }
    ensures forms { OnOk result (map placed_instance instances.new.items
        ≡ map placed_instance instances.old.items ++ placed_whole (step_form step.now) ∷ []) }
{
    let own = Vec::new(alloc);
    instances.push(Instance {
        step,
        whole: true,
        own,
    })?;
    Ok(())
}

/// Adds a step as it stays whole, or with all values of its own variables.
fn push_step<'a>(
    whole: &WholeSteps<'a>,
    instances: &mut Vec<Instance<'a>>,
    step: &'a Step,
) -> Result<(), StepsError>
    ensures instances { OnOk result (map instance_said instances.new.items
        ≡ map instance_said instances.old.items
        ++ instances_of_step (protocol_of whole.now) step.now) }
    ensures places { OnOk result (map instance_place instances.new.items
        ≡ map instance_place instances.old.items
        ++ places_of_step (protocol_of whole.now) step.now) }
    ensures forms { OnOk result (map placed_instance instances.new.items
        ≡ map placed_instance instances.old.items
        ++ forms_of_step (protocol_of whole.now) step.now) }
    ensures refused { IfRefused result (IsPassed MAX_WRITTEN_STEPS
        (length (instances_of_step (protocol_of whole.now) step.now)) step.now.name.place) }
{
    if whole.has(step)? {
        return Ok(push_whole(instances, step, whole.alloc())?);
    }
    let sorts = sorts_of(whole.protocol());
    let tuples = all_tuples(whole.alloc(), sorts, &step.variables, step.name.place)?;
    Ok(push_with(instances, step, tuples)?)
}

/// Adds a step as it stays whole, or with all values of its own variables, if there are no more
/// than may be.
fn push_instances<'a>(
    whole: &WholeSteps<'a>,
    instances: &mut Vec<Instance<'a>>,
    step: &'a Step,
) -> Result<(), StepsError>
    ensures instances { OnOk result (map instance_said instances.new.items
        ≡ map instance_said instances.old.items
        ++ instances_of_step (protocol_of whole.now) step.now) }
    ensures places { OnOk result (map instance_place instances.new.items
        ≡ map instance_place instances.old.items
        ++ places_of_step (protocol_of whole.now) step.now) }
    ensures forms { OnOk result (map placed_instance instances.new.items
        ≡ map placed_instance instances.old.items
        ++ forms_of_step (protocol_of whole.now) step.now) }
    ensures few { OnOk result (length instances.new.items ≤ MAX_WRITTEN_STEPS) }
    ensures refused { IfRefused result (IsPassed MAX_WRITTEN_STEPS (length instances.old.items
        + length (instances_of_step (protocol_of whole.now) step.now)) step.now.name.place) }
{
    push_step(whole, instances, step)?;
    Ok(check_limit(instances.len(), MAX_WRITTEN_STEPS, step.name.place)?)
}

/// All of these steps as they stay whole, or with the values of their own variables, in order.
fn instances_of<'a>(
    whole: &WholeSteps<'a>,
    steps: &'a [Step],
) -> Result<Vec<Instance<'a>>, StepsError>
    ensures instances { IfOk result
        (λ v. map instance_said v.items ≡ instances_of_steps (protocol_of whole.now) steps.now) }
    ensures places { IfOk result
        (λ v. map instance_place v.items ≡ places_of_steps (protocol_of whole.now) steps.now) }
    ensures forms { IfOk result
        (λ v. map placed_instance v.items ≡ forms_of_steps (protocol_of whole.now) steps.now) }
    ensures few { IfOk result (λ v. length v.items ≤ MAX_WRITTEN_STEPS) }
    ensures refused { IfRefused result
        (IsPassedIn MAX_WRITTEN_STEPS (places_of_steps (protocol_of whole.now) steps.now)) }
{
    let mut instances = Vec::new(whole.alloc());
    for step in steps {
        push_instances(whole, &mut instances, step)?;
    }
    Ok(instances)
}

/// All steps of a protocol as they stay whole, or with the values of their own variables, in order.
///
/// # Errors
/// There are more than 8,192 (T12, at the name of the step that passes the limit), or memory was
/// refused.
pub fn instances<'a>(whole: &WholeSteps<'a>) -> Result<Vec<Instance<'a>>, StepsError>
    ensures instances { IfOk result
        (λ v. AreInstancesOf (protocol_form whole.now) v.items) }
    ensures refused { IfRefused result
        (IsPassedIn MAX_WRITTEN_STEPS (instance_places (protocol_form whole.now))) }
{
    let protocol = whole.protocol();
    instances_of(whole, &protocol.steps)
}

/// The name of a step with its values, as the flat model has it, `a'k'l`, or of one that stays
/// whole, where the step's name stands.
///
/// # Errors
/// Memory was refused.
pub fn instance_name(alloc: Global, instance: &Instance<'_>) -> Result<Name, AllocError>
    ensures { IfOk result (λ n. string_bytes n.text
        ≡ definitions.instance_name (instance_said instance.now)) }
{
    element_name(alloc, &instance.step.name, &instance.own)
}
