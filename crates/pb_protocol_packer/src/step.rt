//! Steps over the variables of a packed model.

ghost use Rattle.std.specs.Prelude.{◌≡◌, [], IfOk};
ghost use Rattle.pb_text_tree.specs.Form.{named};
ghost use Rattle.pb_protocol_packing.specs.Packing.{packed_step, with_groups};
ghost use Rattle.pb_protocol_packer.specs.Groups.{groups_in};
ghost use Rattle.pb_protocol_packer.specs.Given.{given_in};
ghost use Rattle.pb_protocol_packer.specs.Scopes.{scope_in, table_of};
ghost use Rattle.pb_protocol_packer.specs.Steps.{assignments_in, assignments_said, step_of};

use crate::assignments::assignments_of;
use crate::builder::Builder;
use crate::given::Given;
use crate::group::Group;
use crate::said::said;
use crate::scope::{Hiding, Packing};
use pb_model_tree::{Assignment, Step};
use pb_text_tree::{copy_name, copy_variables};
use std::alloc::AllocError;

/// What is assigned to each variable of the model.
fn said_assignments<'a>(
    packing: &Packing<'_>,
    hiding: &Hiding<'_>,
    assignments: &'a [Assignment],
) -> Result<Vec<Given<'a>>, AllocError>
    ensures { IfOk result (λ v. given_in v.items ≡ assignments_said
        (scope_in packing.now hiding.now) (assignments_in assignments.now)) }
{
    let mut given = Vec::with_capacity(packing.alloc, assignments.len())?;
    for assignment in assignments {
        let term = said(packing, hiding, &assignment.value.term)?;
        given.push(Given {
            name: &assignment.variable,
            term,
        })?;
    }
    Ok(given)
}

/// A step over the variables of the packed model. Its name and its own variables stay as they are.
pub(crate) fn packed_step(
    packing: &Packing<'_>,
    groups: &[Group],
    step: &Step,
) -> Result<Step, AllocError>
    requires { table_of packing.now.table.now ≡ with_groups (groups_in groups.now) [] }
    ensures meaning { IfOk result
        (λ s. step_of s ≡ packed_step (groups_in groups.now) (step_of step.now)) }
    ensures name { IfOk result (λ s. named s.name ≡ named step.now.name) }
{
    let outermost = Hiding::Outermost;
    let hiding = Hiding::Inner(&step.variables, &outermost);
    let given = said_assignments(packing, &hiding, &step.assignments)?;
    let builder = Builder {
        alloc: packing.alloc,
        place: step.name.place,
    };
    let name = copy_name(packing.alloc, &step.name)?;
    let variables = copy_variables(packing.alloc, &step.variables)?;
    let guard = said(packing, &hiding, &step.guard)?;
    let assignments = assignments_of(builder, &given, groups)?;
    Ok(Step {
        name,
        variables,
        guard,
        assignments,
    })
}
