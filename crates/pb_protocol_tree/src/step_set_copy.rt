//! Copies sets of steps, places included.

ghost use Rattle.std.specs.Prelude.{◌≡◌, IfOk, box_value, map};
ghost use Rattle.pb_protocol_tree.specs.Form.{step_set_form, step_value_form};
ghost use Rattle.pb_protocol_tree.specs.Links.{step_set_links};

use crate::{StepSet, StepSetLink, StepValue};
use pb_text_tree::{Argument, copy_name, copy_term};
use std::alloc::{AllocError, Global};

/// What stands for a step's own variable, copied.
fn copy_value(alloc: Global, value: &StepValue) -> Result<StepValue, AllocError>
    ensures { IfOk result (λ v. step_value_form v ≡ step_value_form value.now) }
{
    match value {
        StepValue::Any { place } => Ok(StepValue::Any { place: *place }),
        StepValue::Value(argument) => {
            let place = argument.place;
            let term = copy_term(alloc, &argument.term)?;
            Ok(StepValue::Value(Argument { place, term }))
        }
    }
}

/// What stands for a step's own variables, copied, in order.
fn copy_values(alloc: Global, values: &[StepValue]) -> Result<Vec<StepValue>, AllocError>
    ensures { IfOk result (λ v. map step_value_form v.items ≡ map step_value_form values.now) }
{
    let mut copies = Vec::new(alloc);
    for value in values {
        copies.push(copy_value(alloc, value)?)?;
    }
    Ok(copies)
}

#[cycle(step_sets)]
fn copy_links(alloc: Global, links: &[StepSetLink]) -> Result<Vec<StepSetLink>, AllocError>
    ensures { IfOk result (λ v. step_set_links v.items ≡ step_set_links links.now) }
{
    let mut copies = Vec::new(alloc);
    for link in links {
        let operand = copy_step_set(alloc, &link.operand)?;
        copies.push(StepSetLink {
            place: link.place,
            operand,
        })?;
    }
    Ok(copies)
}

/// A set that is equal, in a box of its own.
#[cycle(step_sets)]
fn copy_boxed(alloc: Global, set: &Box<StepSet>) -> Result<Box<StepSet>, AllocError>
    ensures { IfOk result (λ copy. step_set_form (box_value copy)
        ≡ step_set_form (box_value set.now)) }
{
    let copy = copy_step_set(alloc, set)?;
    Ok(Box::new(alloc, copy)?)
}

/// A set of steps that is equal, places included.
///
/// # Errors
/// Memory was refused.
#[cycle(step_sets)]
pub fn copy_step_set(alloc: Global, set: &StepSet) -> Result<StepSet, AllocError>
    ensures { IfOk result (λ s. step_set_form s ≡ step_set_form set.now) }
{
    match set {
        StepSet::All { place } => Ok(StepSet::All { place: *place }),
        StepSet::Step(name) => Ok(StepSet::Step(copy_name(alloc, name)?)),
        StepSet::Instances { step, values } => Ok(StepSet::Instances {
            step: copy_name(alloc, step)?,
            values: copy_values(alloc, values)?,
        }),
        StepSet::Complement { place, operand } => Ok(StepSet::Complement {
            place: *place,
            operand: copy_boxed(alloc, operand)?,
        }),
        StepSet::Union { first, links } => Ok(StepSet::Union {
            first: copy_boxed(alloc, first)?,
            links: copy_links(alloc, links)?,
        }),
    }
}
