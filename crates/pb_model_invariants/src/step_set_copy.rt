//! Copies sets of steps, places included.

ghost use Rattle.std.specs.Prelude.{◌≡◌, IfOk, box_value};
ghost use Rattle.pb_model_tree.specs.Form.{step_set_form};
ghost use Rattle.pb_model_invariants.specs.Links.{set_links};

use pb_model_tree::{StepSet, StepSetLink};
use pb_text_tree::copy_name;
use std::alloc::{AllocError, Global};

#[cycle(step_sets)]
fn copy_set_links(alloc: Global, links: &[StepSetLink]) -> Result<Vec<StepSetLink>, AllocError>
    ensures { IfOk result (λ v. set_links v.items ≡ set_links links.now) }
{
    let mut copies = Vec::new(alloc);
    for link in links {
        let operand = copy_step_set(alloc, &link.operand)?;
        copies.push(StepSetLink {
            place: link.place,
            operand,
        })?;
    }
    Ok(copies)
}

#[cycle(step_sets)]
fn copy_boxed_set(alloc: Global, steps: &Box<StepSet>) -> Result<Box<StepSet>, AllocError>
    ensures { IfOk result
        (λ s. step_set_form (box_value s) ≡ step_set_form (box_value steps.now)) }
{
    let copy = copy_step_set(alloc, steps)?;
    Ok(Box::new(alloc, copy)?)
}

/// A set of steps that is equal, places included.
#[cycle(step_sets)]
pub(crate) fn copy_step_set(alloc: Global, steps: &StepSet) -> Result<StepSet, AllocError>
    ensures { IfOk result (λ s. step_set_form s ≡ step_set_form steps.now) }
{
    match steps {
        StepSet::All { place } => Ok(StepSet::All { place: *place }),
        StepSet::Step(name) => Ok(StepSet::Step(copy_name(alloc, name)?)),
        StepSet::Complement { place, operand } => Ok(StepSet::Complement {
            place: *place,
            operand: copy_boxed_set(alloc, operand)?,
        }),
        StepSet::Union { first, links } => Ok(StepSet::Union {
            first: copy_boxed_set(alloc, first)?,
            links: copy_set_links(alloc, links)?,
        }),
    }
}
