//! The fixpoint that says of each reached state what several invariants say of it.

ghost use Rattle.std.specs.Prelude.{◌≡◌, ◌++◌, [], ◌∷◌, IfOk, OnOk, flat_map, map};
ghost use Rattle.pb_text_tree.specs.Form.{named};
ghost use Rattle.pb_model_tree.specs.Form.{formula_form};
ghost use Rattle.pb_model_invariants.specs.Invariants.{joint, joint_body, joint_variable};
ghost use Rattle.pb_model_invariants.specs.Invariants.{onward, parts, parts_besides};
ghost use Rattle.pb_model_invariants.specs.Invariants.{parts_of_single, placed_at};
ghost use Rattle.pb_model_invariants.specs.Links.{forms_in, link_forms};

use crate::conjuncts::conjuncts_of;
use crate::formula_copy::copy_formula;
use crate::greatest::{greatest, is_onward};
use pb_fixpoint::Sign;
use pb_model_tree::{Formula, Link, Modality, StepSet};
use pb_text_tree::{Connective, Name, Place};
use std::alloc::{AllocError, Global};

/// Puts the conjuncts of a body but for `[true] X` behind others.
fn push_parts<'a>(
    variable: &str,
    conjuncts: &[&'a Formula],
    collected: &mut Vec<&'a Formula>,
) -> Result<(), AllocError>
    ensures { OnOk result (forms_in collected.new.items
        ≡ forms_in collected.old.items ++ parts_besides variable.now (forms_in conjuncts.now)) }
{
    for conjunct in conjuncts {
        if !is_onward(variable, conjunct) {
            collected.push(conjunct)?;
        }
    }
    Ok(())
}

/// The same of what a greatest fixpoint says of each state.
fn push_parts_of_single<'a>(
    alloc: Global,
    formula: &'a Formula,
    collected: &mut Vec<&'a Formula>,
) -> Result<(), AllocError>
    ensures { OnOk result (forms_in collected.new.items
        ≡ forms_in collected.old.items ++ parts_of_single (formula_form formula.now)) }
{
    let Some(fixpoint) = greatest(formula) else {
        return Ok(());
    };
    let conjuncts = conjuncts_of(alloc, fixpoint.body)?;
    push_parts(fixpoint.variable, &conjuncts, collected)
}

/// The same of what an invariant says of each state.
fn push_parts_of<'a>(
    alloc: Global,
    formula: &'a Formula,
    collected: &mut Vec<&'a Formula>,
) -> Result<(), AllocError>
    ensures { OnOk result (forms_in collected.new.items
        ≡ forms_in collected.old.items ++ parts (formula_form formula.now)) }
{
    let conjuncts = conjuncts_of(alloc, formula)?;
    for conjunct in &conjuncts {
        push_parts_of_single(alloc, conjunct, collected)?;
    }
    Ok(())
}

/// The name of the joint fixpoint's variable. The equations of its text have names that nothing
/// else has.
fn variable(alloc: Global, place: Place) -> Result<Name, AllocError>
    ensures { IfOk result (λ x. named x ≡ joint_variable place) }
{
    let text = "X".to_owned(alloc)?;
    Ok(Name { place, text })
}

/// `[true] X`, at a place.
fn onward(alloc: Global, place: Place) -> Result<Formula, AllocError>
    ensures { IfOk result (λ f. formula_form f ≡ onward place) }
{
    let operand = Box::new(alloc, Formula::Variable(variable(alloc, place)?))?;
    Ok(Formula::Modal {
        place,
        modality: Modality::Box,
        steps: StepSet::All { place },
        operand,
    })
}

/// Copies of these, and then `[true] X`.
fn links(alloc: Global, parts: &[&Formula], place: Place) -> Result<Vec<Link>, AllocError>
    ensures { IfOk result (λ links. link_forms links.items
        ≡ map (placed_at place) (forms_in parts.now ++ onward place ∷ [])) }
{
    let mut links = Vec::new(alloc);
    for part in parts {
        let operand = copy_formula(alloc, part)?;
        links.push(Link { place, operand })?;
    }
    let operand = onward(alloc, place)?;
    links.push(Link { place, operand })?;
    Ok(links)
}

fn body(alloc: Global, parts: &[&Formula], place: Place) -> Result<Formula, AllocError>
    ensures { IfOk result (λ f. formula_form f ≡ joint_body place (forms_in parts.now)) }
{
    let constant = Formula::Constant { place, value: true };
    let first = Box::new(alloc, constant)?;
    let links = links(alloc, parts, place)?;
    Ok(Formula::Chain {
        connective: Connective::And,
        first,
        links,
    })
}

/// The fixpoint `nu X . f && .. && [true] X` of all that these invariants say of each state; what
/// is new in it has this place. A model that satisfies it satisfies each of them, and one
/// exploration of its states decides it.
///
/// # Errors
/// Memory was refused.
pub fn joint_invariant(
    alloc: Global,
    invariants: &[&Formula],
    place: Place,
) -> Result<Formula, AllocError>
    ensures { IfOk result (λ f. formula_form f ≡ joint place (forms_in invariants.now)) }
{
    let mut parts = Vec::new(alloc);
    for invariant in invariants {
        push_parts_of(alloc, invariant, &mut parts)?;
    }
    let body = Box::new(alloc, body(alloc, &parts, place)?)?;
    Ok(Formula::Fixpoint {
        place,
        sign: Sign::Nu,
        variable: variable(alloc, place)?,
        body,
    })
}
