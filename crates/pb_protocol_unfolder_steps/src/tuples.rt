//! The tuples of values of variables, as they are written.

ghost use Rattle.pb_base.specs.declared.limits.TheConstants.{MAX_OPERATORS};
ghost use Rattle.std.specs.Prelude.{◌≡◌, length, map, MatchResult};
ghost use Rattle.pb_base.specs.OrMemory.{IfFault};
ghost use Rattle.pb_text_tree.specs.Form.{variable_forms};
ghost use Rattle.pb_text_meaning.specs.Erase.{erased_variables};
ghost use Rattle.pb_protocol_unfolding.specs.Written as written;
ghost use Rattle.pb_protocol_unfolder_terms.specs.View.{spec_of};
ghost use Rattle.pb_protocol_unfolder_terms.specs.Values.{tuple_of};
ghost use Rattle.pb_protocol_unfolder_steps.specs.Refusals.{IsPassed};

use crate::fault::{StepsError, StepsFault};
use pb_base::OrMemory;
use pb_protocol_unfolder_terms::{Sorts, Written, variables_of, written_tuples};
use pb_text_tree::{Place, Variables};
use std::alloc::Global;

/// A written value for each variable, for all values, the last fastest; where there are far too
/// many, the limit is passed at the place.
pub(crate) fn all_tuples<'a>(
    alloc: Global,
    sorts: Sorts<'a>,
    variables: &'a [Variables],
    place: Place,
) -> Result<Vec<Vec<Written<'a>>>, StepsError>
    ensures { MatchResult result
        (λ v. map tuple_of v.items
        ≡ written.written_tuples (spec_of sorts.entry)
        (erased_variables (variable_forms variables.now)))
        (λ error. IfFault error (IsPassed MAX_OPERATORS
        (length (written.written_tuples (spec_of sorts.entry)
        (erased_variables (variable_forms variables.now)))) place)) }
{
    let variables = variables_of(alloc, variables)?;
    match written_tuples(alloc, sorts, &variables, place) {
        Ok(tuples) => Ok(tuples),
        Err(OrMemory::Refused(_)) => Err(OrMemory::Refused(StepsFault::Limit(place))),
        Err(OrMemory::Memory) => Err(OrMemory::Memory),
    }
}
