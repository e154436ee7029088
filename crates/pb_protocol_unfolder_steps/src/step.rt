//! The steps of a flat model: those of a protocol that stay whole, or with their values put in,
//! folded, without those that no state can take.

ghost use Rattle.std.specs.Prelude.{◌≡◌, ◌≤◌, ◌<◌, ◌++◌, suc, [], ◌∷◌, length, map, IfOk, OnOk};
ghost use Rattle.std.specs.Prelude.{IfSome, is_some, string_bytes};
ghost use Rattle.pb_base.specs.OrMemory.{IfRefused};
ghost use Rattle.pb_text_tree.specs.Form.{variable_forms};
ghost use Rattle.pb_text_meaning.specs.Erase.{erased_variables};
ghost use Rattle.pb_protocol_folding.specs.FoldedModels.{folded_steps};
ghost use Rattle.pb_protocol_meaning.specs.Steps.{data_of};
ghost use Rattle.pb_protocol_unfolding.specs.Unfolding as definitions;
ghost use Rattle.pb_protocol_unfolder_steps.specs.Elements.{instance_said, own_variables};
ghost use Rattle.pb_protocol_unfolder_steps.specs.StepFaults.{IsFaultInStep, IsFaultInSteps, OnTerm};
ghost use Rattle.pb_protocol_unfolder_steps.specs.StepFaults.{WithValues, placed_instance};
ghost use Rattle.pb_protocol_unfolder_steps.specs.Steps.{IsStepAt, is_kept, place_of_step};
ghost use Rattle.pb_protocol_unfolder_steps.specs.Steps.{places_from, step_found, step_place};
ghost use Rattle.pb_protocol_unfolder_steps.specs.Steps.{step_said};
ghost use Rattle.pb_protocol_unfolder_steps.specs.Unfolder.{form_in, protocol_in, scope_within};

use crate::assignment::unfold_all;
use crate::fault::StepsError;
use crate::instance::{Instance, instance_name};
use crate::limits::MAX_WRITTEN_STEPS;
use crate::own::{own_left, own_values};
use crate::unfolder::Unfolder;
use pb_base::OrMemory;
use pb_model_tree as flat;
use pb_protocol_folding::is_possible;
use pb_protocol_unfolder_terms::{TermScope, paired, variables_of};
use pb_text_tree::{Name, Place, Variables};
use std::alloc::{AllocError, Global};

/// The steps of a flat model.
#[derive(Drop)]
pub struct UnfoldedSteps {
    /// Those that may be taken. The name of the k-th stands in line k and column 0, where no token
    /// does, so that each has a place of its own.
    pub steps: Vec<flat::Step>,
    /// For each step with its values whether it is among them.
    pub kept: Vec<bool>,
}

/// What a flat step begins with: its name, and the own variables that it keeps.
#[derive(Drop)]
struct Head {
    name: Name,
    variables: Vec<Variables>,
}

/// What the flat step of a step with its values, or of one that stays whole, begins with.
fn head_of(alloc: Global, instance: &Instance<'_>) -> Result<Head, AllocError>
    ensures name { IfOk result (λ head. string_bytes head.name.text
        ≡ definitions.instance_name (instance_said instance.now)) }
    ensures variables { IfOk result (λ head. erased_variables (variable_forms head.variables.items)
        ≡ definitions.own_left instance.now.whole (own_variables instance.now.step.now)) }
{
    let name = instance_name(alloc, instance)?;
    let variables = own_left(alloc, instance)?;
    Ok(Head { name, variables })
}

/// A step with its values, where it may be taken; its name stands at the place.
fn unfold_in_scope(
    unfolder: &Unfolder<'_, '_>,
    instance: &Instance<'_>,
    scope: &TermScope<'_>,
    place: Place,
) -> Result<Option<flat::Step>, StepsError>
    requires scope { scope_within unfolder.now scope.now
        ≡ definitions.own_scope (instance_said instance.now) }
    ensures step { IfOk result
        (IsStepAt (protocol_in unfolder.now) (instance_said instance.now) place) }
    ensures refused { IfRefused result (OnTerm (WithValues scope.now
        (IsFaultInStep (form_in unfolder.now) (placed_instance instance.now)))) }
{
    let step = instance.step;
    let guard = unfolder.unfold(scope, true, &step.guard)?;
    if !is_possible(&guard) {
        drop(guard);
        return Ok(None);
    }
    let assignments = unfold_all(unfolder, scope, &step.assignments, step.name.place);
    let (guard, assignments) = paired(guard, assignments)?;
    let Ok(head) = head_of(unfolder.alloc(), instance) else {
        drop((guard, assignments));
        return Err(OrMemory::Memory);
    };
    let text = head.name.text;
    Ok(Some(flat::Step {
        name: Name { place, text },
        variables: head.variables,
        guard,
        assignments,
    }))
}

/// A step with its values, where it may be taken; its name stands at the place.
fn unfold_step(
    unfolder: &Unfolder<'_, '_>,
    instance: &Instance<'_>,
    place: Place,
) -> Result<Option<flat::Step>, StepsError>
    ensures step { IfOk result
        (IsStepAt (protocol_in unfolder.now) (instance_said instance.now) place) }
    ensures refused { IfRefused result (OnTerm
        (IsFaultInStep (form_in unfolder.now) (placed_instance instance.now))) }
{
    let variables = variables_of(unfolder.alloc(), &instance.step.variables)?;
    let values = own_values(unfolder.alloc(), instance)?;
    let scope = TermScope::Values {
        variables: &variables,
        values: &values,
        outer: &TermScope::Empty,
    };
    unfold_in_scope(unfolder, instance, &scope, place)
}

impl UnfoldedSteps {
    /// Adds what was found of a step with its values, at the next place.
    fn push(&mut self, found: Option<flat::Step>) -> Result<(), AllocError>
        ensures steps { OnOk result (map step_said self.new.steps.items
            ≡ map step_said self.old.steps.items ++ step_found found) }
        ensures kept { OnOk result (self.new.kept.items
            ≡ self.old.kept.items ++ is_some found ∷ []) }
        ensures count { OnOk result
            (length self.new.steps.items ≤ suc (length self.old.steps.items)) }
        ensures places { map step_place self.old.steps.items
            ≡ places_from 0 (length self.old.steps.items)
            → IfSome found (λ a. step_place a ≡ place_of_step (length self.old.steps.items))
            → OnOk result (map step_place self.new.steps.items
            ≡ places_from 0 (length self.new.steps.items)) }
    {
        let Ok(()) = self.kept.push(found.is_some()) else {
            drop(found);
            return Err(AllocError);
        };
        if let Some(step) = found {
            self.steps.push(step)?;
        }
        Ok(())
    }
}

/// The steps with their values, folded: those that may be taken, each at a place of its own.
///
/// # Errors
/// A term isn't unfolded (`StepsFault::Term`), or memory was refused.
pub fn unfold_steps(
    unfolder: &Unfolder<'_, '_>,
    instances: &[Instance<'_>],
) -> Result<UnfoldedSteps, StepsError>
    requires { length instances.now ≤ MAX_WRITTEN_STEPS }
    ensures steps { IfOk result (λ u. map step_said u.steps.items
        ≡ folded_steps (data_of (protocol_in unfolder.now))
        (map (definitions.unfolded_step (protocol_in unfolder.now))
        (map instance_said instances.now))) }
    ensures kept { IfOk result (λ u. u.kept.items
        ≡ map (is_kept (protocol_in unfolder.now)) (map instance_said instances.now)) }
    ensures places { IfOk result (λ u. map step_place u.steps.items
        ≡ places_from 0 (length u.steps.items)) }
    ensures refused { IfRefused result (OnTerm
        (IsFaultInSteps (form_in unfolder.now) (map placed_instance instances.now))) }
{
    let mut unfolded = UnfoldedSteps {
        steps: Vec::new(unfolder.alloc()),
        kept: Vec::new(unfolder.alloc()),
    };
    for instance in instances {
        let place = Place {
            line: unfolded.steps.len() as u32,
            column: 0,
        };
        unfolded.push(unfold_step(unfolder, instance, place)?)?;
    }
    Ok(unfolded)
}
