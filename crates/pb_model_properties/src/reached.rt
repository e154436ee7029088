//! The steps of a model: the texts that ask whether they can be taken in a reached state, and what
//! they are called.

ghost use Rattle.std.specs.Prelude.{◌≡◌, ◌<◌, length, map, string_bytes, IfOk, Some};
ghost use Rattle.std.specs.List.{slice_get};
ghost use Rattle.pb_base.specs.OrMemory.{IfRefused};
ghost use Rattle.pb_text_tree.specs.Form.{spec_form};
ghost use Rattle.pb_model_tree.specs.Form.{StepForm, model_form, step_form};
ghost use Rattle.pb_model_words.specs.Vocabulary.{called_steps, told_step};
ghost use Rattle.pb_model_properties.specs.Reached.{name_among, reached_property, name_of_step};
ghost use Rattle.pb_model_properties.specs.Refusals.{IsRefusedText};
ghost use Rattle.pb_model_properties.specs.Said.{IsTextOf};
ghost use Rattle.pb_model_properties.specs.Words.{words_in, words_with};

use crate::solved::{SolvedModel, ToldNames};
use crate::told::told_error;
use pb_model_faults::ModelError;
use pb_model_tree::{Model, Step};
use pb_model_typing::reached_text;
use pb_typing::Typed;
use std::alloc::Global;

/// The text that asks whether the step at a place of a model can be taken in a reached state, its
/// parts standing at the place of `init`.
///
/// # Errors
/// As with `text_at`, of that text.
pub fn reached_text_at(
    alloc: Global,
    solved: &SolvedModel,
    step: usize,
) -> Result<Typed, ModelError>
    requires { step < length solved.now.typed.model.steps.items }
    ensures text { let model = model_form solved.now.typed.model in IfOk result
        (λ text. (a : StepForm) → slice_get model.steps step ≡ Some a
        → IsTextOf model (reached_property model a) (spec_form text.spec)) }
    ensures refused { let model = model_form solved.now.typed.model in IfRefused result
        (λ fault. (a : StepForm) → slice_get model.steps step ≡ Some a
        → IsRefusedText solved.now (reached_property model a) fault) }
{
    match reached_text(alloc, &solved.typed, step) {
        Ok(text) => Ok(text),
        Err(error) => Err(told_error(&solved.names, error)),
    }
}

/// A step's own name.
fn own_name(steps: &[Step], step: usize) -> &str
    ensures { result.now ≡ name_among (map told_step (map step_form steps.now)) step }
{
    match steps.get(step) {
        None => "",
        Some(step) => step.name.text.as_str(),
    }
}

/// The name by which a step is told, where there is that step.
fn called_name<'a>(names: &'a [String], steps: &[Step], step: usize) -> &'a str
    ensures { result.now
        ≡ name_among (called_steps (map string_bytes names.now) (map step_form steps.now)) step }
{
    if step >= steps.len() {
        return "";
    }
    match names.get(step) {
        None => "",
        Some(name) => name.as_str(),
    }
}

/// What a step of a flat model is called, by these names where there are any.
fn name_in_flat<'a>(model: &'a Model, names: &'a Option<ToldNames>, step: usize) -> &'a str
    ensures { result.now ≡ name_of_step (words_with (model_form model.now) names.now) step }
{
    match names {
        None => own_name(&model.steps, step),
        Some(names) => called_name(&names.steps, &model.steps, step),
    }
}

/// What the step at a place is called in the words of the protocol: `read(c1)`. It is nothing where
/// there is no step.
pub fn name_of_step(solved: &SolvedModel, step: usize) -> &str
    ensures { result.now ≡ name_of_step (words_in solved.now) step }
{
    match &solved.unpacked {
        None => name_in_flat(&solved.typed.model, &solved.names, step),
        Some(unpacked) => name_in_flat(&unpacked.model, &solved.names, step),
    }
}
