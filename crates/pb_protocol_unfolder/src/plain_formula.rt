//! Formulas and sets of steps of protocols, as those of flat models. What a flat model doesn't have
//! is left out: `specs/Plain.antt` says where nothing is.

ghost use Rattle.std.specs.Prelude.{◌≡◌, map, IfOk, box_value};
ghost use Rattle.pb_model_tree.specs.Form as flat;
ghost use Rattle.pb_protocol_tree.specs.Form.{formula_form, step_set_form};
ghost use Rattle.pb_protocol_unfolder.specs.Plain.{flat_formula_form, flat_set};
ghost use Rattle.pb_protocol_unfolder.specs.View.{flat_link, flat_set_link, link_form, set_link_form};
ghost use Rattle.pb_protocol_unfolder.specs.View.{linked, set_linked};

use pb_model_tree as flat;
use pb_protocol_tree::{Formula, Link, StepSet, StepSetLink};
use std::alloc::{AllocError, Global};

#[cycle(flat_sets)]
fn flat_set_links(
    alloc: Global,
    links: Vec<StepSetLink>,
) -> Result<Vec<flat::StepSetLink>, AllocError>
    ensures { IfOk result (λ v. map flat_set_link v.items
        ≡ map set_linked (map set_link_form links.items)) }
{
    let mut flat_links = Vec::new(alloc);
    for link in links {
        let operand = flat_step_set(alloc, link.operand)?;
        flat_links.push(flat::StepSetLink {
            place: link.place,
            operand,
        })?;
    }
    Ok(flat_links)
}

#[cycle(flat_sets)]
fn flat_boxed_set(alloc: Global, set: Box<StepSet>) -> Result<Box<flat::StepSet>, AllocError>
    ensures { IfOk result (λ A. flat.step_set_form (box_value A)
        ≡ flat_set (step_set_form (box_value set))) }
{
    let set = flat_step_set(alloc, Box::into_inner(set))?;
    Ok(Box::new(alloc, set)?)
}

/// A set of steps by their names.
#[cycle(flat_sets)]
fn flat_step_set(alloc: Global, set: StepSet) -> Result<flat::StepSet, AllocError>
    ensures { IfOk result (λ A. flat.step_set_form A ≡ flat_set (step_set_form set)) }
{
    match set {
        StepSet::All { place } => Ok(flat::StepSet::All { place }),
        StepSet::Step(name) => Ok(flat::StepSet::Step(name)),
        StepSet::Instances { step, .. } => Ok(flat::StepSet::Step(step)),
        StepSet::Complement { place, operand } => {
            let operand = flat_boxed_set(alloc, operand)?;
            Ok(flat::StepSet::Complement { place, operand })
        }
        StepSet::Union { first, links } => {
            let first = flat_boxed_set(alloc, first)?;
            let links = flat_set_links(alloc, links)?;
            Ok(flat::StepSet::Union { first, links })
        }
    }
}

#[cycle(flat_formulas)]
fn flat_links(alloc: Global, links: Vec<Link>) -> Result<Vec<flat::Link>, AllocError>
    ensures { IfOk result (λ v. map flat_link v.items ≡ map linked (map link_form links.items)) }
{
    let mut flat_links = Vec::new(alloc);
    for link in links {
        let operand = flat_formula(alloc, link.operand)?;
        flat_links.push(flat::Link {
            place: link.place,
            operand,
        })?;
    }
    Ok(flat_links)
}

#[cycle(flat_formulas)]
fn flat_boxed_formula(
    alloc: Global,
    formula: Box<Formula>,
) -> Result<Box<flat::Formula>, AllocError>
    ensures { IfOk result (λ f. flat.formula_form (box_value f)
        ≡ flat_formula_form (formula_form (box_value formula))) }
{
    let formula = flat_formula(alloc, Box::into_inner(formula))?;
    Ok(Box::new(alloc, formula)?)
}

/// A formula without quantifiers over formulas.
#[cycle(flat_formulas)]
pub(crate) fn flat_formula(alloc: Global, formula: Formula) -> Result<flat::Formula, AllocError>
    ensures { IfOk result (λ f. flat.formula_form f ≡ flat_formula_form (formula_form formula)) }
{
    match formula {
        Formula::Constant { place, value } => Ok(flat::Formula::Constant { place, value }),
        Formula::Data { place, term } => Ok(flat::Formula::Data { place, term }),
        Formula::Variable(name) => Ok(flat::Formula::Variable(name)),
        Formula::Negation { place, operand } => {
            let operand = flat_boxed_formula(alloc, operand)?;
            Ok(flat::Formula::Negation { place, operand })
        }
        Formula::Chain {
            connective,
            first,
            links,
        } => {
            let first = flat_boxed_formula(alloc, first)?;
            let links = flat_links(alloc, links)?;
            Ok(flat::Formula::Chain {
                connective,
                first,
                links,
            })
        }
        Formula::Modal {
            place,
            modality,
            steps,
            operand,
        } => {
            let steps = flat_step_set(alloc, steps)?;
            let operand = flat_boxed_formula(alloc, operand)?;
            Ok(flat::Formula::Modal {
                place,
                modality,
                steps,
                operand,
            })
        }
        Formula::Fixpoint {
            place,
            sign,
            variable,
            body,
        } => {
            let body = flat_boxed_formula(alloc, body)?;
            Ok(flat::Formula::Fixpoint {
                place,
                sign,
                variable,
                body,
            })
        }
        Formula::Quantified { body, .. } => flat_formula(alloc, Box::into_inner(body)),
    }
}
