//! The normal form of typed formulas: negations are driven down to data (De Morgan).

ghost use Rattle.std.specs.Prelude.{◌≡◌, IfOk};
ghost use Rattle.pb_typing_tree.specs.Tree.{Connected};
ghost use Rattle.pb_typing_tree.specs.View as tree;
ghost use Rattle.pb_typing_tree.specs.View.{chained_formula};
ghost use Rattle.pb_typing.specs.View.{is_positive};
ghost use Rattle.pb_normal.specs.SignedForm.{signed_form, signed_operands};
ghost use Rattle.pb_normal.specs.View.{formula_view, formula_views};

use crate::formula::Formula;
use crate::sign::{signed_junction, signed_quantifier};
use pb_text_tree::Connective;
use pb_typing::{Polarity, operand_polarity};
use std::alloc::{AllocError, Global};

/// The normal form of a formula of a polarity.
///
/// # Errors
/// Memory was refused.
#[cycle(formulas)]
pub(crate) fn signed_form(
    alloc: Global,
    polarity: Polarity,
    formula: &pb_typing_tree::Formula,
) -> Result<Formula<'_>, AllocError>
    ensures { IfOk result (λ f. formula_view f
        ≡ signed_form (is_positive polarity) (tree.formula_view formula.now)) }
{
    match formula {
        pb_typing_tree::Formula::Test(term) => Ok(Formula::Test { polarity, term }),
        pb_typing_tree::Formula::Negation(operand) => {
            signed_form(alloc, polarity.opposite(), operand)
        }
        pb_typing_tree::Formula::Chain {
            connective,
            first,
            links,
        } => signed_chain(alloc, polarity, *connective, first, links),
        pb_typing_tree::Formula::Quantified {
            quantifier,
            slot,
            carriers,
            body,
        } => {
            let body = signed_form(alloc, polarity, body)?;
            Ok(Formula::Each {
                quantifier: signed_quantifier(*quantifier, polarity),
                slot: *slot,
                carriers,
                body: Box::new(alloc, body)?,
            })
        }
        pb_typing_tree::Formula::Call {
            equation,
            arguments,
            ..
        } => Ok(Formula::Call {
            equation: *equation,
            arguments,
        }),
    }
}

/// The normal form of operands of one connective: one node.
#[cycle(formulas)]
fn signed_chain<'t>(
    alloc: Global,
    polarity: Polarity,
    connective: Connective,
    first: &'t pb_typing_tree::Formula,
    links: &'t [pb_typing_tree::Formula],
) -> Result<Formula<'t>, AllocError>
    ensures { IfOk result (λ f. formula_view f ≡ signed_form (is_positive polarity)
        (chained_formula (Connected connective) (tree.formula_view first.now)
        (tree.formula_views links.now))) }
{
    let of_first = operand_polarity(connective, polarity, links.len());
    let head = signed_form(alloc, of_first, first)?;
    let first = Box::new(alloc, head)?;
    let rest = signed_links(alloc, polarity, connective, links)?;
    Ok(Formula::Join {
        junction: signed_junction(connective, polarity),
        first,
        rest,
    })
}

/// The normal forms of the operands behind the first.
#[cycle(formulas)]
fn signed_links(
    alloc: Global,
    polarity: Polarity,
    connective: Connective,
    links: &[pb_typing_tree::Formula],
) -> Result<Vec<Formula<'_>>, AllocError>
    ensures { IfOk result (λ all. formula_views all.items ≡ signed_operands connective
        (is_positive polarity) (tree.formula_views links.now)) }
{
    let mut rest = Vec::new(alloc);
    for (index, link) in links.iter().enumerate() {
        let of_link = operand_polarity(connective, polarity, links.len() - index - 1);
        let operand = signed_form(alloc, of_link, link)?;
        rest.push(operand)?;
    }
    Ok(rest)
}
