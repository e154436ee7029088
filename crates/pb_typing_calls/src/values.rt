//! The values of a call's arguments, and of the slots around it.

ghost use Rattle.std.specs.Prelude.{◌≡◌, IfOk, length, map};
ghost use Rattle.pb_typing_tree.specs.Fits.{AllFit};
ghost use Rattle.pb_typing_tree.specs.View.{argument_view};
ghost use Rattle.pb_typing_values.specs.Slots.{slots_of};
ghost use Rattle.pb_typing_calls.specs.Made.{argument_values};

use pb_typing_tree::Argument;
use pb_typing_values::value;
use std::alloc::{AllocError, Global};

/// The values of arguments, one each.
pub(crate) fn argument_values(
    alloc: Global,
    arguments: &[Argument],
    slots: &[i64],
) -> Result<Vec<i64>, AllocError>
    requires { AllFit (length slots.now) (slots_of slots.now) (map argument_view arguments.now) }
    ensures { IfOk result (λ values. values.items
        ≡ argument_values (slots_of slots.now) (map argument_view arguments.now)) }
{
    let mut values = Vec::new(alloc);
    for index in 0..arguments.len() {
        values.push(value(&arguments[index].term, slots))?;
    }
    Ok(values)
}

/// What a slot holds: those behind the list hold 0.
fn held(slots: &[i64], slot: usize) -> i64
    ensures { result ≡ slots_of slots.now slot }
{
    if slot < slots.len() { slots[slot] } else { 0 }
}

/// What some of the slots hold, in their order.
pub(crate) fn held_values(
    alloc: Global,
    own: &[usize],
    slots: &[i64],
) -> Result<Vec<i64>, AllocError>
    ensures { IfOk result (λ values. values.items ≡ map (slots_of slots.now) own.now) }
{
    let mut values = Vec::new(alloc);
    for index in 0..own.len() {
        values.push(held(slots, own[index]))?;
    }
    Ok(values)
}
