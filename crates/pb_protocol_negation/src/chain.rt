//! The negation of a chain, made of the negations of its operands: that of `a => (b => c)` is a
//! conjunction with `!` in front of all but the last.

ghost use Rattle.std.specs.Prelude.{◌≡◌, map, IfOk, box_value};
ghost use Rattle.pb_text_tree.specs.declared.operator.Connective.TheVariants as connective;
ghost use Rattle.pb_text_tree.specs.Form.{chained};
ghost use Rattle.pb_protocol_tree.specs.Form.{formula_form};
ghost use Rattle.pb_protocol_negation.specs.Negated.{negated_connection};
ghost use Rattle.pb_protocol_negation.specs.Links.{antecedent, link_form};

use pb_protocol_tree::{Formula, Link};
use pb_text_tree::{Connective, Place};
use std::alloc::{AllocError, Global};

/// An operand with `!` in front of it where a `=>` stands behind it.
fn antecedent(
    alloc: Global,
    operand: Formula,
    implication: Option<Place>,
) -> Result<Formula, AllocError>
    ensures { IfOk result
        (λ f. formula_form f ≡ antecedent implication (formula_form operand)) }
{
    let Some(place) = implication else {
        return Ok(operand);
    };
    let operand = Box::new(alloc, operand)?;
    Ok(Formula::Negation { place, operand })
}

/// The negation of implications, from the last operand on.
fn negated_implications(
    alloc: Global,
    first: Formula,
    links: Vec<Link>,
) -> Result<Formula, AllocError>
    ensures { IfOk result
        (λ f. formula_form f ≡ chained (negated_connection connective.Implies)
        (formula_form first) (map link_form links.items)) }
{
    let mut operands = links;
    let mut implication = None;
    let mut negations = Vec::new(alloc);
    while let Some(link) = operands.pop() {
        let place = link.place;
        let operand = antecedent(alloc, link.operand, implication)?;
        negations.push(Link { place, operand })?;
        implication = Some(place);
    }
    negations.reverse();
    let first = antecedent(alloc, first, implication)?;
    Ok(Formula::Chain {
        connective: Connective::And,
        first: Box::new(alloc, first)?,
        links: negations,
    })
}

/// The negation of a chain.
pub(crate) fn negated_chain(
    alloc: Global,
    connective: Connective,
    first: Box<Formula>,
    links: Vec<Link>,
) -> Result<Formula, AllocError>
    ensures { IfOk result
        (λ f. formula_form f ≡ chained (negated_connection connective)
        (formula_form (box_value first)) (map link_form links.items)) }
{
    match connective {
        Connective::And => Ok(Formula::Chain {
            connective: Connective::Or,
            first,
            links,
        }),
        Connective::Or => Ok(Formula::Chain {
            connective: Connective::And,
            first,
            links,
        }),
        Connective::Implies => negated_implications(alloc, Box::into_inner(first), links),
    }
}
