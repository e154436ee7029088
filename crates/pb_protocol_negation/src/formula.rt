//! The negation of a formula.

ghost use Rattle.std.specs.Prelude.{◌≡◌, map, IfOk, box_value};
ghost use Rattle.pb_protocol_tree.specs.Form.{formula_form};
ghost use Rattle.pb_protocol_negation.specs.Dual.{dual_modality, dual_quantifier, dual_sign};
ghost use Rattle.pb_protocol_negation.specs.Negated.{negated};
ghost use Rattle.pb_protocol_negation.specs.Links.{link_form, negated_link};

use crate::chain::negated_chain;
use pb_fixpoint::Sign;
use pb_model_tree::Modality;
use pb_protocol_tree::{Formula, Link};
use pb_text_tree::Quantifier;
use std::alloc::{AllocError, Global};

fn dual_sign(sign: Sign) -> Sign
    ensures { result ≡ dual_sign sign }
{
    match sign {
        Sign::Mu => Sign::Nu,
        Sign::Nu => Sign::Mu,
    }
}

fn dual_quantifier(quantifier: Quantifier) -> Quantifier
    ensures { result ≡ dual_quantifier quantifier }
{
    match quantifier {
        Quantifier::Forall => Quantifier::Exists,
        Quantifier::Exists => Quantifier::Forall,
    }
}

fn dual_modality(modality: Modality) -> Modality
    ensures { result ≡ dual_modality modality }
{
    match modality {
        Modality::Box => Modality::Diamond,
        Modality::Diamond => Modality::Box,
    }
}

/// The negations of the operands of links.
#[cycle(formulas)]
fn negated_links(alloc: Global, links: Vec<Link>) -> Result<Vec<Link>, AllocError>
    ensures { IfOk result (λ v. map link_form v.items
        ≡ map negated_link (map link_form links.items)) }
{
    let mut negations = Vec::new(alloc);
    for link in links {
        let operand = negated(alloc, link.operand)?;
        negations.push(Link {
            place: link.place,
            operand,
        })?;
    }
    Ok(negations)
}

/// The negation of a formula in a box.
#[cycle(formulas)]
fn negated_box(alloc: Global, formula: Box<Formula>) -> Result<Box<Formula>, AllocError>
    ensures { IfOk result
        (λ b. formula_form (box_value b) ≡ negated (formula_form (box_value formula))) }
{
    let negation = negated(alloc, Box::into_inner(formula))?;
    Ok(Box::new(alloc, negation)?)
}

/// The negation of a formula.
#[cycle(formulas)]
pub(crate) fn negated(alloc: Global, formula: Formula) -> Result<Formula, AllocError>
    ensures { IfOk result (λ f. formula_form f ≡ negated (formula_form formula)) }
{
    match formula {
        Formula::Constant { place, value } => Ok(Formula::Constant {
            place,
            value: !value,
        }),
        Formula::Data { place, term } => {
            let operand = Box::new(alloc, Formula::Data { place, term })?;
            Ok(Formula::Negation { place, operand })
        }
        Formula::Variable(name) => Ok(Formula::Variable(name)),
        Formula::Negation { place, operand } => {
            let operand = negated_box(alloc, operand)?;
            Ok(Formula::Negation { place, operand })
        }
        Formula::Chain {
            connective,
            first,
            links,
        } => {
            let first = negated_box(alloc, first)?;
            let links = negated_links(alloc, links)?;
            negated_chain(alloc, connective, first, links)
        }
        Formula::Modal {
            place,
            modality,
            steps,
            operand,
        } => Ok(Formula::Modal {
            place,
            modality: dual_modality(modality),
            steps,
            operand: negated_box(alloc, operand)?,
        }),
        Formula::Fixpoint {
            place,
            sign,
            variable,
            body,
        } => Ok(Formula::Fixpoint {
            place,
            sign: dual_sign(sign),
            variable,
            body: negated_box(alloc, body)?,
        }),
        Formula::Quantified {
            place,
            quantifier,
            variables,
            body,
        } => Ok(Formula::Quantified {
            place,
            quantifier: dual_quantifier(quantifier),
            variables,
            body: negated_box(alloc, body)?,
        }),
    }
}
