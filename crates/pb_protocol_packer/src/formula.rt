//! Formulas over the variables of a packed model.

ghost use Rattle.std.specs.Prelude.{◌≡◌, map, IfOk, box_value};
ghost use Rattle.pb_protocol_packing.specs.Packing.{formula_said};
ghost use Rattle.pb_protocol_packer.specs.Formulas.{formula_of, link_shapes, operands_of, shape_of};
ghost use Rattle.pb_protocol_packer.specs.Scopes.{table_of};

use crate::said::said;
use crate::scope::{Hiding, Packing};
use crate::step_sets::copy_step_set;
use pb_model_tree::{Formula, Link};
use pb_text_tree::copy_name;
use std::alloc::AllocError;

#[cycle(formulas)]
fn said_links(packing: &Packing<'_>, links: &[Link]) -> Result<Vec<Link>, AllocError>
    ensures meaning { IfOk result (λ v. operands_of v.items
        ≡ map (formula_said (table_of packing.now.table.now)) (operands_of links.now)) }
    ensures shape { IfOk result (λ v. link_shapes v.items ≡ link_shapes links.now) }
{
    let mut said_links = Vec::new(packing.alloc);
    for link in links {
        let operand = formula_said(packing, &link.operand)?;
        said_links.push(Link {
            place: link.place,
            operand,
        })?;
    }
    Ok(said_links)
}

#[cycle(formulas)]
fn said_boxed(packing: &Packing<'_>, formula: &Box<Formula>) -> Result<Box<Formula>, AllocError>
    ensures meaning { IfOk result (λ f. formula_of (box_value f)
        ≡ formula_said (table_of packing.now.table.now) (formula_of (box_value formula.now))) }
    ensures shape { IfOk result (λ f. shape_of (box_value f) ≡ shape_of (box_value formula.now)) }
{
    let said = formula_said(packing, formula)?;
    Ok(Box::new(packing.alloc, said)?)
}

/// What a formula says over the variables of the packed model; all but its data stays as it is,
/// places included.
#[cycle(formulas)]
pub(crate) fn formula_said(packing: &Packing<'_>, formula: &Formula) -> Result<Formula, AllocError>
    ensures meaning { IfOk result (λ f. formula_of f
        ≡ formula_said (table_of packing.now.table.now) (formula_of formula.now)) }
    ensures shape { IfOk result (λ f. shape_of f ≡ shape_of formula.now) }
{
    match formula {
        Formula::Constant { place, value } => Ok(Formula::Constant {
            place: *place,
            value: *value,
        }),
        Formula::Data { place, term } => Ok(Formula::Data {
            place: *place,
            term: said(packing, &Hiding::Outermost, term)?,
        }),
        Formula::Variable(name) => Ok(Formula::Variable(copy_name(packing.alloc, name)?)),
        Formula::Negation { place, operand } => Ok(Formula::Negation {
            place: *place,
            operand: said_boxed(packing, operand)?,
        }),
        Formula::Chain {
            connective,
            first,
            links,
        } => Ok(Formula::Chain {
            connective: *connective,
            first: said_boxed(packing, first)?,
            links: said_links(packing, links)?,
        }),
        Formula::Modal {
            place,
            modality,
            steps,
            operand,
        } => Ok(Formula::Modal {
            place: *place,
            modality: *modality,
            steps: copy_step_set(packing.alloc, steps)?,
            operand: said_boxed(packing, operand)?,
        }),
        Formula::Fixpoint {
            place,
            sign,
            variable,
            body,
        } => Ok(Formula::Fixpoint {
            place: *place,
            sign: *sign,
            variable: copy_name(packing.alloc, variable)?,
            body: said_boxed(packing, body)?,
        }),
    }
}
