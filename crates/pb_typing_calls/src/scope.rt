//! Inside of which quantifiers a formula stands.

ghost use Rattle.std.specs.Prelude.{◌≡◌, ◌++◌, ◌-◌, IfOk, []};
ghost use Rattle.std.specs.List.{range_with_len};

use pb_typing_values::Environment;
use std::alloc::{AllocError, Global};

/// The slots of the quantifiers around a formula, outermost first. Operands without calls are
/// evaluated where nothing holds.
#[derive(Clone, Copy)]
pub(crate) struct Scope<'a> {
    pub alloc: Global,
    pub own: &'a [usize],
    pub environment: Environment<'a>,
    pub ghost nothing_holds: { environment.truths.now ≡ [] },
}

/// These slots, and behind them those from `start` to `end`.
pub(crate) fn with_slots(
    alloc: Global,
    own: &[usize],
    start: usize,
    end: usize,
) -> Result<Vec<usize>, AllocError>
    ensures { IfOk result (λ slots. slots.items ≡ own.now ++ range_with_len start (end - start)) }
{
    let mut slots = Vec::new(alloc);
    slots.extend_from_slice(own)?;
    for slot in start..end {
        slots.push(slot)?;
    }
    Ok(slots)
}
