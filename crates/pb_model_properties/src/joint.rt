//! One text for several properties: where it shows what they say together, each is satisfied, and
//! one exploration has decided all of them.

ghost use Rattle.std.specs.Prelude.{◌≡◌, ◌<◌, length, filter, map, IfOk, IfSome};
ghost use Rattle.std.specs.List.{All};
ghost use Rattle.pb_text_tree.specs.Form.{spec_form};
ghost use Rattle.pb_model_tree.specs.Form.{model_form, property_form};
ghost use Rattle.pb_model_invariants.specs.Links.{forms_in};
ghost use Rattle.pb_model_properties.specs.Joint.{formulas_at, is_invariant_at, joint_property};
ghost use Rattle.pb_model_properties.specs.Joint.{IsJointText};
ghost use Rattle.pb_model_properties.specs.Said.{IsTextOf};

use crate::solved::SolvedModel;
use pb_base::OrMemory;
use pb_model_invariants::{is_invariant, joint_invariant, joint_invariants_hold};
use pb_model_tree::{Formula, Property};
use pb_model_typing::formula_text;
use pb_typing::Typed;
use std::alloc::{AllocError, Global};

/// The text of what several invariants say together, and the places of their properties.
#[derive(Drop)]
pub struct JointText {
    pub places: Vec<usize>,
    pub text: Typed,
}

/// The places of the properties among these that are invariants.
fn invariants_among(
    alloc: Global,
    properties: &[Property],
    places: &[usize],
) -> Result<Vec<usize>, AllocError>
    requires { All (λ place. place < length properties.now) places.now }
    ensures { IfOk result (λ found. found.items
        ≡ filter (is_invariant_at (map property_form properties.now)) places.now) }
{
    let mut found = Vec::new(alloc);
    for place in places {
        if is_invariant(alloc, &properties[*place].formula)? {
            found.push(*place)?;
        }
    }
    Ok(found)
}

/// The formulas of the properties at these places.
fn formulas_at<'a>(
    alloc: Global,
    properties: &'a [Property],
    places: &[usize],
) -> Result<Vec<&'a Formula>, AllocError>
    requires { All (λ place. place < length properties.now) places.now }
    ensures { IfOk result (λ formulas. forms_in formulas.items
        ≡ formulas_at (map property_form properties.now) places.now) }
{
    let mut formulas = Vec::new(alloc);
    for place in places {
        formulas.push(&properties[*place].formula)?;
    }
    Ok(formulas)
}

/// Whether one exploration would do for several: of one fixpoint it does what its own text does.
fn are_several(formulas: &[&Formula]) -> bool {
    match formulas.first() {
        None => false,
        Some(formula) => match formula {
            Formula::Chain { .. } => true,
            _ => formulas.len() > 1,
        },
    }
}

/// The text of what these invariants say together, unless it isn't well typed, as where it is too
/// large.
fn joint_typed(
    alloc: Global,
    solved: &SolvedModel,
    invariants: &[&Formula],
) -> Result<Option<Typed>, AllocError>
    ensures { let model = model_form solved.now.typed.model in IfOk result
        (λ found. IfSome found (λ text.
        IsTextOf model (joint_property model (forms_in invariants.now)) (spec_form text.spec))) }
{
    let place = solved.typed.model.initial.place;
    let formula = joint_invariant(alloc, invariants, place)?;
    let text = formula_text(alloc, &solved.typed, &formula, place);
    drop(formula);
    match text {
        Ok(text) => Ok(Some(text)),
        Err(OrMemory::Refused(_)) => Ok(None),
        Err(OrMemory::Memory) => Err(AllocError),
    }
}

/// The text of what those of the properties at these places say together that are invariants, where
/// these are several and their text is well typed. Each of them is satisfied where its answer is
/// true; where it is false, one of them isn't, or more of the reachable states are looked at than
/// one of them asks for.
///
/// # Errors
/// Memory was refused.
pub fn joint_text(
    alloc: Global,
    solved: &SolvedModel,
    places: &[usize],
) -> Result<Option<JointText>, AllocError>
    requires { All (λ place. place < length solved.now.typed.model.properties.items) places.now }
    ensures { IfOk result (λ found. IfSome found
        (IsJointText (model_form solved.now.typed.model) places.now)) }
{
    joint_invariants_hold();
    let properties = &solved.typed.model.properties;
    let places = invariants_among(alloc, properties, places)?;
    let invariants = formulas_at(alloc, properties, &places)?;
    if !are_several(&invariants) {
        return Ok(None);
    }
    match joint_typed(alloc, solved, &invariants)? {
        None => Ok(None),
        Some(text) => Ok(Some(JointText { places, text })),
    }
}
