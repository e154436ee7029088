//! Sets of steps by the names of the steps in them that are left.

ghost use Rattle.std.specs.Prelude.{◌≡◌, ◌+◌, ◌<◌, ◌++◌, map, IfOk, OnOk};
ghost use Rattle.std.specs.Prelude.{is_some};
ghost use Rattle.pb_base.specs.OrMemory.{IfRefused};
ghost use Rattle.pb_protocol_folding.specs.View.{set_of};
ghost use Rattle.pb_protocol_tree.specs.Form.{step_set_form};
ghost use Rattle.pb_protocol_unfolder_steps.specs.Elements.{instance_said};
ghost use Rattle.pb_protocol_unfolder_steps.specs.Unfolder.{protocol_in, scope_within};
ghost use Rattle.pb_protocol_unfolder.specs.Apart.{name_bytes};
ghost use Rattle.pb_protocol_unfolder.specs.Faults.{IsFaultOfSet, IsFaultOfSteps};
ghost use Rattle.pb_protocol_unfolder.specs.Left.{left_set, member_name, member_names};
ghost use Rattle.pb_protocol_unfolder.specs.Operators.{name_count};
ghost use Rattle.pb_protocol_unfolder.specs.Parts.{IsFaultBy, IsFaultIn, IsFaultOfModality};
ghost use Rattle.pb_protocol_unfolder.specs.Sets.{is_each};

use crate::fault::UnfoldingError;
use crate::formulas::Formulas;
use crate::named_steps::named_steps;
use crate::room::Room;
use crate::set::is_in_set;
use crate::value_scope::ValueScope;
use pb_model_tree as flat;
use pb_protocol_tree::StepSet;
use pb_protocol_unfolder_steps::{Instance, Unfolder, instance_name};
use pb_text_tree::{Name, Place};

/// Where a set of all steps stands, if it is one.
fn place_of_all(set: &StepSet) -> Option<Place>
    ensures { is_some result ≡ is_each (step_set_form set.now) }
{
    match set {
        StepSet::All { place } => Some(*place),
        StepSet::Union { first, links } => {
            if links.is_empty() {
                return place_of_all(first);
            }
            None
        }
        StepSet::Step(_) | StepSet::Instances { .. } | StepSet::Complement { .. } => None,
    }
}

/// Adds the name of a step with its values, if it is in a set.
fn push_member(
    names: &mut Vec<Name>,
    unfolder: &Unfolder<'_, '_>,
    scope: &ValueScope<'_>,
    set: &StepSet,
    instance: &Instance<'_>,
) -> Result<(), UnfoldingError>
    ensures names { OnOk result (map name_bytes names.new.items ≡ map name_bytes names.old.items
        ++ member_name unfolder.now scope.now.names (step_set_form set.now)
        (instance_said instance.now)) }
    ensures refused { IfRefused result
        (IsFaultIn (IsFaultOfSet (protocol_in unfolder.now)
        (scope_within unfolder.now scope.now.names) (instance_said instance.now).own
        (step_set_form set.now))) }
{
    if is_in_set(unfolder, scope, set, instance)? {
        names.push(instance_name(unfolder.alloc(), instance)?)?;
    }
    Ok(())
}

/// The names of those of these steps that are in a set.
fn members(
    unfolder: &Unfolder<'_, '_>,
    scope: &ValueScope<'_>,
    set: &StepSet,
    instances: &[Instance<'_>],
) -> Result<Vec<Name>, UnfoldingError>
    ensures names { IfOk result
        (λ v. map name_bytes v.items ≡ member_names unfolder.now
        scope.now.names (step_set_form set.now) (map instance_said instances.now)) }
    ensures refused { IfRefused result
        (IsFaultIn (IsFaultOfSteps (protocol_in unfolder.now)
        (scope_within unfolder.now scope.now.names)
        (map instance_said instances.now) (step_set_form set.now))) }
{
    let mut names = Vec::new(unfolder.alloc());
    for instance in instances {
        push_member(&mut names, unfolder, scope, set, instance)?;
    }
    Ok(names)
}

/// A set of steps as that of the steps in it that are left; it stands at the place.
pub(crate) fn unfold_set(
    formulas: &Formulas<'_>,
    scope: &ValueScope<'_>,
    room: &mut Room,
    place: Place,
    set: &StepSet,
) -> Result<flat::StepSet, UnfoldingError>
    ensures set { IfOk result (λ A. set_of A
        ≡ left_set formulas.now scope.now.names (step_set_form set.now)) }
    ensures room { OnOk result (room.old.operators ≡ room.new.operators
        + name_count (left_set formulas.now scope.now.names (step_set_form set.now))) }
    ensures refused { IfRefused result
        (IsFaultBy (IsFaultOfModality (protocol_in formulas.now)
        (room.old.operators
        < name_count (left_set formulas.now scope.now.names (step_set_form set.now)))
        (scope_within formulas.now scope.now.names) place (step_set_form set.now))) }
{
    if let Some(place) = place_of_all(set) {
        return Ok(flat::StepSet::All { place });
    }
    let names = members(formulas.unfolder(), scope, set, formulas.left())?;
    room.take(names.len(), place)?;
    Ok(named_steps(formulas.alloc(), place, names)?)
}
