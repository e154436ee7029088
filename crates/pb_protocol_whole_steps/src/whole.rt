//! Whether a step stays whole.

ghost use Rattle.std.specs.Prelude.{◌≡◌, map, IfOk};
ghost use Rattle.std.specs.List.{list_all};
ghost use Rattle.pb_protocol_tree.specs.Form.{assignment_form, step_form};
ghost use Rattle.pb_protocol_meaning.specs.Erase.{erased_assignment, erased_step};
ghost use Rattle.pb_protocol_unfolding.specs.Whole as whole;
ghost use Rattle.pb_protocol_whole_steps.specs.View.{name_bytes, name_in};

use crate::data::{are_absent, is_data};
use crate::names::{are_fresh, is_among, own_names};
use pb_protocol_tree::{Assignment, Step};
use pb_text_tree::Name;
use std::alloc::{AllocError, Global};

/// Whether these names stand as data alone in what is assigned, and not in the index.
fn assigns_data(own: &[&Name], assignment: &Assignment) -> bool
    ensures { result ≡ whole.assigns_data (map name_in own.now)
        (erased_assignment (assignment_form assignment.now)) }
{
    if !are_absent(own, &assignment.index) {
        return false;
    }
    is_data(own, true, &assignment.value.term)
}

fn all_assign_data(own: &[&Name], assignments: &[Assignment]) -> bool
    ensures { result ≡ list_all (whole.assigns_data (map name_in own.now))
        (map erased_assignment (map assignment_form assignments.now)) }
{
    for assignment in assignments {
        if !assigns_data(own, assignment) {
            return false;
        }
    }
    true
}

/// Whether a step stays whole, where the steps of some names are named by values, and its own
/// variables may have none of the other names.
///
/// # Errors
/// Memory was refused.
pub fn stays_whole(
    alloc: Global,
    others: &[Name],
    valued: &[&Name],
    step: &Step,
) -> Result<bool, AllocError>
    ensures { IfOk result (λ b. b ≡ whole.stays_whole (map name_bytes others.now)
        (map name_in valued.now) (erased_step (step_form step.now))) }
{
    let own = own_names(alloc, &step.variables)?;
    let is_whole = !is_among(valued, step.name.text.as_str())
        && are_fresh(others, &own)
        && is_data(&own, true, &step.guard)
        && all_assign_data(&own, &step.assignments);
    Ok(is_whole)
}
