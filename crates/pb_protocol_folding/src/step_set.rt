//! Sets of the steps that are left.

ghost use Rattle.std.specs.Prelude.{◌≡◌, IfOk, true, string_bytes};
ghost use Rattle.pb_model_tree.specs.Form.{StepSetForm, step_set_form};
ghost use Rattle.pb_text_tree.specs.Form.{chained};
ghost use Rattle.pb_protocol_folding.specs.FoldedModels.{folded_only, folded_union};
ghost use Rattle.pb_protocol_folding.specs.FoldedModels as models;
ghost use Rattle.pb_protocol_folding.specs.View.{set_of, set_links};

use crate::links::{alone, first_and_links, with_first};
use pb_model_tree::{StepSet, StepSetLink};
use pb_text_tree::{Name, Place};
use std::alloc::{AllocError, Global};

/// Whether a set is that of all steps.
#[cycle(alls)]
fn is_all(set: &StepSet) -> bool
    ensures { result ≡ models.is_all (set_of set.now) }
{
    match set {
        StepSet::All { .. } => true,
        StepSet::Union { first, links } => {
            if links.is_empty() {
                return is_all(first);
            }
            false
        }
        _ => false,
    }
}

/// Whether a set is written as that of no step.
#[cycle(nones)]
fn is_none(set: &StepSet) -> bool
    ensures { result ≡ models.is_none (set_of set.now) }
{
    match set {
        StepSet::Complement { operand, .. } => is_all(operand),
        StepSet::Union { first, links } => {
            if links.is_empty() {
                return is_none(first);
            }
            false
        }
        _ => false,
    }
}

/// The set of the step of a name, where one is left; else that of no step.
///
/// # Errors
/// Memory was refused.
pub fn step_named(alloc: Global, is_left: bool, name: Name) -> Result<StepSet, AllocError>
    ensures { IfOk result (λ A. set_of A ≡ folded_only is_left (string_bytes name.text)) }
{
    if is_left {
        return Ok(StepSet::Step(name));
    }
    let place = name.place;
    let operand = Box::new(alloc, StepSet::All { place })?;
    Ok(StepSet::Complement { place, operand })
}

/// The links of a union whose sets behind the first are those of a set.
fn union_links(alloc: Global, place: Place, set: StepSet) -> Result<Vec<StepSetLink>, AllocError>
    ensures { IfOk result (λ links. (A : StepSetForm) →
        chained StepSetForm.union A (set_links links.items)
        ≡ StepSetForm.union place A (step_set_form set)) }
{
    match set {
        StepSet::Union { first, links } => {
            let operand = Box::into_inner(first);
            with_first(links, StepSetLink { place, operand })
        }
        operand => alone(alloc, StepSetLink { place, operand }),
    }
}

/// The union of two sets of steps that are left. The place is that of `||`.
///
/// # Errors
/// Memory was refused.
pub fn union_of(
    alloc: Global,
    place: Place,
    left: StepSet,
    right: StepSet,
) -> Result<StepSet, AllocError>
    ensures { IfOk result (λ A. set_of A ≡ folded_union (set_of left) (set_of right)) }
{
    if is_none(&left) {
        drop(left);
        return Ok(right);
    }
    if is_none(&right) {
        drop(right);
        return Ok(left);
    }
    let links = union_links(alloc, place, right);
    let (first, links) = first_and_links(alloc, left, links)?;
    Ok(StepSet::Union { first, links })
}
