//! Models that are accepted, the texts of their properties, and that of all their steps.

ghost use Rattle.std.specs.Prelude.{◌≡◌, ◌<◌, length, IfErr, IfOk, MatchResult, OnOk, Some};
ghost use Rattle.std.specs.List.{slice_get};
ghost use Rattle.pb_base.specs.OrMemory.{IfFault, IfRefused, OnRefused};
ghost use Rattle.pb_text_tree.specs.Form.{spec_form};
ghost use Rattle.pb_text_meaning.specs.Erase.{erase};
ghost use Rattle.pb_text_meaning.specs.Meaning.{answer};
ghost use Rattle.pb_model_tree.specs.Form.{PropertyForm, formula_form, model_form};
ghost use Rattle.pb_model_meaning.specs.Erase.{erased_formula, model_of};
ghost use Rattle.pb_model_meaning.specs.Satisfaction.{satisfies};
ghost use Rattle.pb_model_names.specs.View.{formula_of};
ghost use Rattle.pb_model_translation.specs.Placed.{every_step_form, placed};
ghost use Rattle.pb_model_typing.specs.Texts.{HasTypedText, IsFaultFromText, IsModelFault};
ghost use Rattle.pb_model_typing.specs.Texts.{IsTypedModel, placed_property};

use crate::rules::check_rules;
use crate::texts::{check_steps_text, every_step, typed_text};
use pb_model_translator::translate_formula;
use pb_model_tree::{Formula, Model};
use pb_sorts::Counting;
use pb_text_tree::Place;
use pb_typing::{Typed, check_counting};
use pb_typing_declarations::TypeError;
use std::alloc::{AllocError, Global};

/// A model that is well typed. Whether the texts of its properties are, is told of each where it is
/// asked for.
#[derive(Drop)]
pub struct TypedModel {
    pub model: Model,
    pub ghost typed: { ∥ IsTypedModel (model_form model) ∥₁ },
}

/// Accepts a model exactly where it is well typed: names are declared once and are there, what
/// equations call stands under an even number of negations, and the text of `nu X . [true] X`, in
/// which each step stands, is well typed.
///
/// States count where they are reached: a model may declare `MAX_NUMBERS` of them (T12).
///
/// Recursion goes as deep as formulas and terms nest.
///
/// # Errors
/// A refusal hands the model back with a fault of its own rules or of that text; where several
/// rules fail, any one of them. Each is told at its place in the model: one of the text, at that of
/// the part of the model of which that part of the text was made. A name in data that is none there
/// is T07 at the places of names of fixpoints around, and T01 at others. `TypeError::Memory` comes
/// only where memory was refused.
pub fn check_model(alloc: Global, model: Model) -> Result<TypedModel, (Model, TypeError)>
    ensures kept { MatchResult result (λ typed. typed.model ≡ model)
        (λ refused. refused.0 ≡ model) }
    ensures accepted { OnOk result (IsTypedModel (model_form model)) }
    ensures fails { IfErr result (λ refused.
        IfFault refused.1 (IsModelFault (model_form model))) }
    ensures ill_typed { IfErr result (λ refused.
        IfFault refused.1 (λ _. ¬ IsTypedModel (model_form model))) }
{
    match check_parts(alloc, &model) {
        Ok(()) => Ok(TypedModel { model }),
        Err(error) => Err((model, error)),
    }
}

/// Checks the model's own rules, and then those of its steps' text.
fn check_parts(alloc: Global, model: &Model) -> Result<(), TypeError>
    ensures accepted { OnOk result (IsTypedModel (model_form model.now)) }
    ensures fails { IfRefused result (IsModelFault (model_form model.now)) }
    ensures ill_typed { OnRefused result (¬ IsTypedModel (model_form model.now)) }
{
    check_rules(alloc, model)?;
    check_steps_text(alloc, model)
}

/// The text of the property at a place, with its places in the model, where it is well typed. Its
/// answer is true exactly where the model satisfies the property.
///
/// # Errors
/// A text that isn't well typed, as one that is too large, is refused with a fault of it, at its
/// place in the model; where several rules fail, with any one of them. `TypeError::Memory` comes
/// only where memory was refused.
pub fn property_text(alloc: Global, typed: &TypedModel, property: usize) -> Result<Typed, TypeError>
    requires { property < length typed.now.model.properties.items }
    ensures text { IfOk result (λ text. (p : PropertyForm)
        → slice_get (model_form typed.now.model).properties property ≡ Some p
        → spec_form text.spec ≡ placed (model_form typed.now.model) p.name.place p.formula) }
    ensures typed { OnOk result ((p : PropertyForm)
        → slice_get (model_form typed.now.model).properties property ≡ Some p
        → HasTypedText (model_of typed.now.model) (erased_formula p.formula)) }
    ensures answer { IfOk result (λ text. (p : PropertyForm)
        → slice_get (model_form typed.now.model).properties property ≡ Some p
        → answer (erase (spec_form text.spec))
        ≡ satisfies (model_of typed.now.model) (erased_formula p.formula)) }
    ensures fails { IfRefused result (λ fault. (p : PropertyForm)
        → slice_get (model_form typed.now.model).properties property ≡ Some p
        → IsFaultFromText (model_form typed.now.model) (placed_property p) fault) }
    ensures ill_typed { OnRefused result ((p : PropertyForm)
        → slice_get (model_form typed.now.model).properties property ≡ Some p
        → ¬ HasTypedText (model_of typed.now.model) (erased_formula p.formula)) }
{
    let property = &typed.model.properties[property];
    typed_text(alloc, &typed.model, &property.formula, property.name.place)
}

/// The text of a formula of a model, whose equations have their names at a place, where it is well
/// typed. Its answer is true exactly where the model satisfies the formula.
///
/// # Errors
/// As with `property_text`.
pub fn formula_text(
    alloc: Global,
    typed: &TypedModel,
    formula: &Formula,
    place: Place,
) -> Result<Typed, TypeError>
    ensures text { IfOk result (λ text. spec_form text.spec
        ≡ placed (model_form typed.now.model) place (formula_form formula.now)) }
    ensures typed { OnOk result (HasTypedText (model_of typed.now.model) (formula_of formula.now)) }
    ensures answer { IfOk result (λ text. answer (erase (spec_form text.spec))
        ≡ satisfies (model_of typed.now.model) (formula_of formula.now)) }
    ensures fails { IfRefused result
        (IsFaultFromText (model_form typed.now.model) (place, formula_form formula.now)) }
    ensures ill_typed { OnRefused result
        (¬ HasTypedText (model_of typed.now.model) (formula_of formula.now)) }
{
    typed_text(alloc, &typed.model, formula, place)
}

/// The text in which each step stands, that of `nu X . [true] X`, which is well typed, with its
/// places in the model. What it calls of a state are the states to which steps lead from there.
pub fn steps_text(alloc: Global, typed: &TypedModel) -> Result<Typed, AllocError>
    ensures { let place = typed.now.model.initial.place in IfOk result (λ text.
        spec_form text.spec ≡ placed (model_form typed.now.model) place (every_step_form place)) }
{
    let place = typed.model.initial.place;
    let formula = every_step(alloc, place)?;
    let text = translate_formula(alloc, &typed.model, &formula, place)?;
    match check_counting(alloc, text, Counting::Reached) {
        Ok(text) => Ok(text),
        Err((text, error)) => {
            drop(text);
            Err(error.only_memory())
        }
    }
}
