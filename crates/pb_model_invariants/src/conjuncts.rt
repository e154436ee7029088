//! The operands of conjunctions, however they are nested.

ghost use Rattle.std.specs.Prelude.{◌≡◌, ◌||◌, ◌++◌, IfOk, OnOk, flat_map, length, nat_eq};
ghost use Rattle.pb_model_tree.specs.Form.{formula_form};
ghost use Rattle.pb_model_invariants.specs.Invariants.{conjuncts};
ghost use Rattle.pb_model_invariants.specs.Links.{conjuncts_of_link, forms_in, is_and};

use pb_model_tree::{Formula, Link};
use pb_text_tree::Connective;
use std::alloc::{AllocError, Global};

/// Whether a chain is a conjunction, or its first operand alone.
fn joins(connective: Connective, links: &[Link]) -> bool
    ensures { result ≡ (is_and connective || nat_eq (length links.now) 0) }
{
    match connective {
        Connective::And => true,
        Connective::Or | Connective::Implies => links.is_empty(),
    }
}

/// Puts the conjuncts of a formula behind others.
#[cycle(formulas)]
fn push_conjuncts<'a>(
    formula: &'a Formula,
    operands: &mut Vec<&'a Formula>,
) -> Result<(), AllocError>
    ensures { OnOk result (forms_in operands.new.items
        ≡ forms_in operands.old.items ++ conjuncts (formula_form formula.now)) }
{
    match formula {
        Formula::Chain {
            connective,
            first,
            links,
        } => {
            if joins(*connective, links) {
                push_conjuncts(first, operands)?;
                return push_operands(links, operands);
            }
            operands.push(formula)?;
            Ok(())
        }
        Formula::Constant { .. }
        | Formula::Data { .. }
        | Formula::Variable(_)
        | Formula::Negation { .. }
        | Formula::Modal { .. }
        | Formula::Fixpoint { .. } => {
            operands.push(formula)?;
            Ok(())
        }
    }
}

/// The same of the operands of links.
#[cycle(formulas)]
fn push_operands<'a>(links: &'a [Link], operands: &mut Vec<&'a Formula>) -> Result<(), AllocError>
    ensures { OnOk result (forms_in operands.new.items
        ≡ forms_in operands.old.items ++ flat_map conjuncts_of_link links.now) }
{
    for link in links {
        push_conjuncts(&link.operand, operands)?;
    }
    Ok(())
}

/// The conjuncts of a formula.
///
/// # Errors
/// Memory was refused.
pub(crate) fn conjuncts_of<'a>(
    alloc: Global,
    formula: &'a Formula,
) -> Result<Vec<&'a Formula>, AllocError>
    ensures { IfOk result (λ fs. forms_in fs.items ≡ conjuncts (formula_form formula.now)) }
{
    let mut conjuncts = Vec::new(alloc);
    push_conjuncts(formula, &mut conjuncts)?;
    Ok(conjuncts)
}
