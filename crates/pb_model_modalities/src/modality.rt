//! Modalities over steps.

ghost use Rattle.std.specs.Prelude.{◌≡◌, IfOk};
ghost use Rattle.pb_text_tree.specs.Form.{formula_form};
ghost use Rattle.pb_model_tree.specs.Form.{step_form, step_set_form};
ghost use Rattle.pb_model_translation.specs.Placed.{modal_form, step_text};
ghost use Rattle.pb_model_translation.specs.Placed as placed;
ghost use Rattle.pb_model_modalities.specs.View.{callee_of, model_in, names_by};

use crate::callee::Callee;
use crate::context::Context;
use crate::guard::{Reading, guarded};
use crate::instance::call;
use crate::join::{join, quantified};
use crate::step_set::has_step;
use pb_model_tree::{Modality, Step, StepSet};
use pb_text_tree::{Connective, Formula, Link, Place, Quantifier};
use std::alloc::AllocError;

/// The connective between a guard and what holds behind it.
fn guarding(modality: Modality) -> Connective
    ensures { result ≡ placed.guarding modality }
{
    match modality {
        Modality::Box => Connective::Implies,
        Modality::Diamond => Connective::And,
    }
}

/// How a modality speaks of the values of a step's own variables.
fn quantifier_of(modality: Modality) -> Quantifier
    ensures { result ≡ placed.quantifier_of modality }
{
    match modality {
        Modality::Box => Quantifier::Forall,
        Modality::Diamond => Quantifier::Exists,
    }
}

/// What a modality says of one step: for all values of the step's own variables, or for some, the
/// guard's conjuncts and behind them what holds in the state after the step, at the step's name.
fn after_step(
    context: &Context<'_>,
    modality: Modality,
    callee: Callee,
    step: &Step,
) -> Result<Formula, AllocError>
    ensures { IfOk result (λ f. formula_form f ≡ step_text (model_in context.now)
        (names_by context.now) modality (callee_of callee) (step_form step.now)) }
{
    let place = step.name.place;
    let reading = Reading {
        connective: guarding(modality),
        place,
        negated: false,
    };
    let called = call(context, callee, &step.assignments, place)?;
    let body = guarded(context.alloc, reading, &step.guard, called)?;
    let quantifier = quantifier_of(modality);
    quantified(context.alloc, quantifier, place, &step.variables, body)
}

/// A modality over the steps of a set, of whatever stands for its operand.
///
/// # Errors
/// Memory was refused.
pub fn modal(
    context: &Context<'_>,
    modality: Modality,
    place: Place,
    steps: &StepSet,
    callee: Callee,
) -> Result<Formula, AllocError>
    ensures { IfOk result (λ f. formula_form f ≡ modal_form (model_in context.now)
        (names_by context.now) modality place (step_set_form steps.now) (callee_of callee)) }
{
    let mut links = Vec::new(context.alloc);
    for step in &context.model.steps {
        if has_step(steps, &step.name.text) {
            let operand = after_step(context, modality, callee, step)?;
            let place = step.name.place;
            links.push(Link { place, operand })?;
        }
    }
    join(context.alloc, modality, place, links)
}
