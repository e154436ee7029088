//! The rules of the texts to which formulas of a model are translated.

ghost use Rattle.std.specs.Prelude.{◌≡◌, IfOk, OnOk};
ghost use Rattle.pb_base.specs.OrMemory.{IfRefused, OnRefused};
ghost use Rattle.pb_text_tree.specs.Form.{spec_form};
ghost use Rattle.pb_model_tree.specs.Form.{formula_form, model_form};
ghost use Rattle.pb_model_meaning.specs.Erase.{model_of};
ghost use Rattle.pb_model_names.specs.View.{formula_of};
ghost use Rattle.pb_model_translation.specs.Placed.{every_step_form, placed};
ghost use Rattle.pb_model_typing.specs.Texts.{HasTypedText, IsFaultFromText};
ghost use Rattle.pb_model_typing.specs.Texts.{every_step, placed_steps};

use crate::data::error_in_model;
use pb_fixpoint::Sign;
use pb_model_translator::translate_formula;
use pb_model_tree::{Formula, Modality, Model, StepSet};
use pb_sorts::Counting;
use pb_text_tree::{Name, Place};
use pb_typing::{Typed, check_counting};
use pb_typing_declarations::TypeError;
use std::alloc::{AllocError, Global};

/// The text of a formula, whose equations have their names at a place, where it is well typed. Of
/// its instances those count that are reached (T12).
pub(crate) fn typed_text(
    alloc: Global,
    model: &Model,
    formula: &Formula,
    place: Place,
) -> Result<Typed, TypeError>
    ensures text { IfOk result (λ text. spec_form text.spec
        ≡ placed (model_form model.now) place (formula_form formula.now)) }
    ensures typed { OnOk result (HasTypedText (model_of model.now) (formula_of formula.now)) }
    ensures fails { IfRefused result
        (IsFaultFromText (model_form model.now) (place, formula_form formula.now)) }
    ensures ill_typed { OnRefused result
        (¬ HasTypedText (model_of model.now) (formula_of formula.now)) }
{
    let text = translate_formula(alloc, model, formula, place)?;
    match check_counting(alloc, text, Counting::Reached) {
        Ok(text) => Ok(text),
        Err((text, error)) => {
            drop(text);
            Err(error_in_model(model, error))
        }
    }
}

/// `nu X . [true] X`, at a place.
pub(crate) fn every_step(alloc: Global, place: Place) -> Result<Formula, AllocError>
    ensures { IfOk result (λ f. formula_form f ≡ every_step_form place) }
{
    let text = "X".to_owned(alloc)?;
    let operand = Box::new(alloc, Formula::Variable(Name { place, text }))?;
    let body = Formula::Modal {
        place,
        modality: Modality::Box,
        steps: StepSet::All { place },
        operand,
    };
    let body = Box::new(alloc, body)?;
    let text = "X".to_owned(alloc)?;
    Ok(Formula::Fixpoint {
        place,
        sign: Sign::Nu,
        variable: Name { place, text },
        body,
    })
}

/// Checks the text in which each step stands.
pub(crate) fn check_steps_text(alloc: Global, model: &Model) -> Result<(), TypeError>
    ensures accepted { OnOk result (HasTypedText (model_of model.now) every_step) }
    ensures fails { IfRefused result
        (IsFaultFromText (model_form model.now) (placed_steps (model_form model.now))) }
    ensures ill_typed { OnRefused result (¬ HasTypedText (model_of model.now) every_step) }
{
    let place = model.initial.place;
    let steps = every_step(alloc, place)?;
    typed_text(alloc, model, &steps, place)?;
    Ok(())
}
