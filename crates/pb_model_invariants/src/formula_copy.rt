//! Copies formulas, places included.

ghost use Rattle.std.specs.Prelude.{◌≡◌, IfOk, box_value};
ghost use Rattle.pb_model_tree.specs.Form.{formula_form};
ghost use Rattle.pb_model_invariants.specs.Links.{link_forms};

use crate::step_set_copy::copy_step_set;
use pb_model_tree::{Formula, Link};
use pb_text_tree::{copy_name, copy_term};
use std::alloc::{AllocError, Global};

#[cycle(formulas)]
fn copy_links(alloc: Global, links: &[Link]) -> Result<Vec<Link>, AllocError>
    ensures { IfOk result (λ v. link_forms v.items ≡ link_forms links.now) }
{
    let mut copies = Vec::new(alloc);
    for link in links {
        let operand = copy_formula(alloc, &link.operand)?;
        copies.push(Link {
            place: link.place,
            operand,
        })?;
    }
    Ok(copies)
}

/// A formula that is equal, in a box of its own.
#[cycle(formulas)]
fn copy_boxed(alloc: Global, formula: &Box<Formula>) -> Result<Box<Formula>, AllocError>
    ensures { IfOk result (λ copy. formula_form (box_value copy)
        ≡ formula_form (box_value formula.now)) }
{
    let copy = copy_formula(alloc, formula)?;
    Ok(Box::new(alloc, copy)?)
}

/// A formula that is equal, places included.
///
/// # Errors
/// Memory was refused.
#[cycle(formulas)]
pub(crate) fn copy_formula(alloc: Global, formula: &Formula) -> Result<Formula, AllocError>
    ensures { IfOk result (λ f. formula_form f ≡ formula_form formula.now) }
{
    match formula {
        Formula::Constant { place, value } => Ok(Formula::Constant {
            place: *place,
            value: *value,
        }),
        Formula::Data { place, term } => Ok(Formula::Data {
            place: *place,
            term: copy_term(alloc, term)?,
        }),
        Formula::Variable(name) => Ok(Formula::Variable(copy_name(alloc, name)?)),
        Formula::Negation { place, operand } => Ok(Formula::Negation {
            place: *place,
            operand: copy_boxed(alloc, operand)?,
        }),
        Formula::Chain {
            connective,
            first,
            links,
        } => Ok(Formula::Chain {
            connective: *connective,
            first: copy_boxed(alloc, first)?,
            links: copy_links(alloc, links)?,
        }),
        Formula::Modal {
            place,
            modality,
            steps,
            operand,
        } => Ok(Formula::Modal {
            place: *place,
            modality: *modality,
            steps: copy_step_set(alloc, steps)?,
            operand: copy_boxed(alloc, operand)?,
        }),
        Formula::Fixpoint {
            place,
            sign,
            variable,
            body,
        } => Ok(Formula::Fixpoint {
            place: *place,
            sign: *sign,
            variable: copy_name(alloc, variable)?,
            body: copy_boxed(alloc, body)?,
        }),
    }
}
