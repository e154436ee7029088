//! The steps with their values that are left.

ghost use Rattle.std.specs.Prelude.{◌≡◌, ◌++◌, map, IfOk, OnOk};
ghost use Rattle.pb_protocol_unfolder_steps.specs.Elements.{instance_said};
ghost use Rattle.pb_protocol_unfolder_steps.specs.Refusals.{instance_place};
ghost use Rattle.pb_protocol_unfolder.specs.Unfolded.{chosen_instances, chosen_one, chosen_place};
ghost use Rattle.pb_protocol_unfolder.specs.Unfolded.{chosen_places};

use pb_protocol_unfolder_steps::{Instance, copy_values};
use std::alloc::{AllocError, Global};

/// The same step with the same values.
fn copy_instance<'a>(alloc: Global, instance: &Instance<'a>) -> Result<Instance<'a>, AllocError>
    ensures said { IfOk result (λ i. instance_said i ≡ instance_said instance.now) }
    ensures place { IfOk result (λ i. instance_place i ≡ instance_place instance.now) }
{
    let step = instance.step;
    let whole = instance.whole;
    let own = copy_values(alloc, &instance.own)?;
    Ok(Instance { step, whole, own })
}

/// Adds a step with its values, if it is kept.
fn push_kept<'a>(
    alloc: Global,
    left: &mut Vec<Instance<'a>>,
    instance: &Instance<'a>,
    is_kept: bool,
) -> Result<(), AllocError>
    ensures said { OnOk result (map instance_said left.new.items
        ≡ map instance_said left.old.items ++ chosen_one (instance_said instance.now) is_kept) }
    ensures places { OnOk result (map instance_place left.new.items
        ≡ map instance_place left.old.items ++ chosen_place (instance_place instance.now) is_kept) }
{
    if is_kept {
        left.push(copy_instance(alloc, instance)?)?;
    }
    Ok(())
}

/// Those of the steps with their values that are kept.
pub(crate) fn left_instances<'a>(
    alloc: Global,
    instances: &[Instance<'a>],
    kept: &[bool],
) -> Result<Vec<Instance<'a>>, AllocError>
    ensures said { IfOk result (λ v. map instance_said v.items
        ≡ chosen_instances (map instance_said instances.now) kept.now) }
    ensures places { IfOk result (λ v. map instance_place v.items
        ≡ chosen_places (map instance_place instances.now) kept.now) }
{
    let mut left = Vec::new(alloc);
    for place in 0..instances.len().min(kept.len()) {
        push_kept(alloc, &mut left, &instances[place], kept[place])?;
    }
    Ok(left)
}
