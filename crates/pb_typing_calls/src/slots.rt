//! The slots of a right side: its equation's parameters have the first of them.

ghost use Rattle.std.specs.Prelude.{◌≡◌, ◌++◌, IfOk, length, pos, replicate};

use pb_sorts::Carrier;
use std::alloc::{AllocError, Global};

/// Slots that hold these values, and 0 behind them for each variable of a quantifier.
///
/// # Errors
/// Memory was refused.
pub(crate) fn slots_at(
    alloc: Global,
    values: &[i64],
    loops: &[Carrier],
) -> Result<Vec<i64>, AllocError>
    ensures { IfOk result (λ slots. slots.items
        ≡ values.now ++ replicate (length loops.now) (pos 0)) }
{
    let mut slots = Vec::with_capacity(alloc, values.len() + loops.len())?;
    slots.extend_from_slice(values)?;
    slots.resize(values.len() + loops.len(), 0)?;
    Ok(slots)
}
