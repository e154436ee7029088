//! How much of a protocol is written out.

ghost use Rattle.std.specs.Prelude.{◌≤◌, MatchResult};
ghost use Rattle.pb_protocol_unfolder_steps.specs.Refusals.{IsPassed};

use crate::fault::StepsFault;
use pb_text_tree::Place;

/// How many elements all state variables may have (T12).
pub const MAX_ELEMENTS: usize = 64;

/// How many steps there may be, over all values of their own variables (T12).
pub const MAX_WRITTEN_STEPS: usize = 8192;

/// Checks that there are at most so many; else the limit is passed at the place.
pub(crate) fn check_limit(count: usize, limit: usize, place: Place) -> Result<(), StepsFault>
    ensures { MatchResult result (λ _. count ≤ limit) (IsPassed limit count place) }
{
    if count > limit {
        return Err(StepsFault::Limit(place));
    }
    Ok(())
}
