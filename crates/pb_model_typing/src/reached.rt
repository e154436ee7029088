//! The texts that ask whether a step can be taken in a state that is reached: where it can't, its
//! guard is never true.

ghost use Rattle.std.specs.Prelude.{◌≡◌, ◌<◌, length, IfOk, OnOk, Some};
ghost use Rattle.std.specs.List.{slice_get};
ghost use Rattle.pb_base.specs.OrMemory.{IfRefused, OnRefused};
ghost use Rattle.pb_text_tree.specs.Form.{named, spec_form};
ghost use Rattle.pb_text_meaning.specs.Erase.{erase};
ghost use Rattle.pb_text_meaning.specs.Meaning.{answer};
ghost use Rattle.pb_model_tree.specs.Form.{StepForm, formula_form, model_form};
ghost use Rattle.pb_model_meaning.specs.Erase.{model_of};
ghost use Rattle.pb_model_meaning.specs.Satisfaction.{satisfies};
ghost use Rattle.pb_model_translation.specs.Placed.{placed};
ghost use Rattle.pb_model_typing.specs.Reached.{onward_form, reached, reached_form, taken_form};
ghost use Rattle.pb_model_typing.specs.Texts.{HasTypedText, IsFaultFromText};

use crate::texts::typed_text;
use crate::typed::TypedModel;
use pb_fixpoint::Sign;
use pb_model_tree::{Formula, Link, Modality, StepSet};
use pb_text_tree::{Connective, Name, Place};
use pb_typing::Typed;
use pb_typing_declarations::TypeError;
use std::alloc::{AllocError, Global};

/// `<a> true`, at a place.
fn taken(alloc: Global, step: &Name, place: Place) -> Result<Formula, AllocError>
    ensures { IfOk result (λ f. formula_form f ≡ taken_form place (named step.now).text) }
{
    let text = step.text.as_str().to_owned(alloc)?;
    let constant = Formula::Constant { place, value: true };
    let operand = Box::new(alloc, constant)?;
    Ok(Formula::Modal {
        place,
        modality: Modality::Diamond,
        steps: StepSet::Step(Name { place, text }),
        operand,
    })
}

/// `<true> X`, at a place.
fn onward(alloc: Global, place: Place) -> Result<Formula, AllocError>
    ensures { IfOk result (λ f. formula_form f ≡ onward_form place) }
{
    let text = "X".to_owned(alloc)?;
    let operand = Box::new(alloc, Formula::Variable(Name { place, text }))?;
    Ok(Formula::Modal {
        place,
        modality: Modality::Diamond,
        steps: StepSet::All { place },
        operand,
    })
}

/// `mu X . <a> true || <true> X`, at a place.
fn reached(alloc: Global, step: &Name, place: Place) -> Result<Formula, AllocError>
    ensures { IfOk result (λ f. formula_form f ≡ reached_form place (named step.now).text) }
{
    let first = Box::new(alloc, taken(alloc, step, place)?)?;
    let operand = onward(alloc, place)?;
    let mut links = Vec::new(alloc);
    links.push(Link { place, operand })?;
    let body = Formula::Chain {
        connective: Connective::Or,
        first,
        links,
    };
    let body = Box::new(alloc, body)?;
    let text = "X".to_owned(alloc)?;
    Ok(Formula::Fixpoint {
        place,
        sign: Sign::Mu,
        variable: Name { place, text },
        body,
    })
}

/// The text that asks whether the step at a place among the model's can be taken in a state that is
/// reached, its parts standing at the place of `init`. Its answer is true exactly where some run
/// within the ranges leads to such a state.
///
/// # Errors
/// A text that isn't well typed is refused with a fault of it, at its place in the model.
/// `TypeError::Memory` comes only where memory was refused.
pub fn reached_text(alloc: Global, typed: &TypedModel, step: usize) -> Result<Typed, TypeError>
    requires { step < length typed.now.model.steps.items }
    ensures text { let place = typed.now.model.initial.place in IfOk result
        (λ text. (a : StepForm) → slice_get (model_form typed.now.model).steps step ≡ Some a
        → spec_form text.spec
        ≡ placed (model_form typed.now.model) place (reached_form place a.name.text)) }
    ensures typed { OnOk result ((a : StepForm)
        → slice_get (model_form typed.now.model).steps step ≡ Some a
        → HasTypedText (model_of typed.now.model) (reached a.name.text)) }
    ensures answer { IfOk result
        (λ text. (a : StepForm) → slice_get (model_form typed.now.model).steps step ≡ Some a
        → answer (erase (spec_form text.spec))
        ≡ satisfies (model_of typed.now.model) (reached a.name.text)) }
    ensures fails { let place = typed.now.model.initial.place in IfRefused result
        (λ fault. (a : StepForm) → slice_get (model_form typed.now.model).steps step ≡ Some a
        → IsFaultFromText (model_form typed.now.model) (place, reached_form place a.name.text)
        fault) }
    ensures ill_typed { OnRefused result ((a : StepForm)
        → slice_get (model_form typed.now.model).steps step ≡ Some a
        → ¬ HasTypedText (model_of typed.now.model) (reached a.name.text)) }
{
    let place = typed.model.initial.place;
    let formula = reached(alloc, &typed.model.steps[step].name, place)?;
    typed_text(alloc, &typed.model, &formula, place)
}
