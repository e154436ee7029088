//! Which formulas are invariants.

ghost use Rattle.std.specs.Prelude.{◌≡◌, ◌&&◌, IfOk};
ghost use Rattle.std.specs.List.{list_all};
ghost use Rattle.pb_model_tree.specs.Form.{formula_form};
ghost use Rattle.pb_model_invariants.specs.Invariants.{is_fixpoint_free, is_invariant};
ghost use Rattle.pb_model_invariants.specs.Invariants.{is_part, is_single_invariant};
ghost use Rattle.pb_model_invariants.specs.Links.{forms_in, is_free_link};

use crate::conjuncts::conjuncts_of;
use crate::greatest::{greatest, is_onward};
use pb_model_tree::{Formula, Link};
use std::alloc::{AllocError, Global};

/// Whether a formula has neither fixpoints nor their variables.
#[cycle(formulas)]
fn is_fixpoint_free(formula: &Formula) -> bool
    ensures { result ≡ is_fixpoint_free (formula_form formula.now) }
{
    match formula {
        Formula::Constant { .. } | Formula::Data { .. } => true,
        Formula::Variable(_) | Formula::Fixpoint { .. } => false,
        Formula::Negation { operand, .. } | Formula::Modal { operand, .. } => {
            is_fixpoint_free(operand)
        }
        Formula::Chain { first, links, .. } => {
            if !is_fixpoint_free(first) {
                return false;
            }
            are_fixpoint_free(links)
        }
    }
}

/// The same of the operands of links.
#[cycle(formulas)]
fn are_fixpoint_free(links: &[Link]) -> bool
    ensures { result ≡ list_all is_free_link links.now }
{
    for link in links {
        if !is_fixpoint_free(&link.operand) {
            return false;
        }
    }
    true
}

/// Whether a formula may be a conjunct of the body of an invariant with this variable.
fn is_part(variable: &str, formula: &Formula) -> bool
    ensures { result ≡ is_part variable.now (formula_form formula.now) }
{
    if is_onward(variable, formula) {
        return true;
    }
    is_fixpoint_free(formula)
}

/// Whether each of these may.
fn are_parts(variable: &str, formulas: &[&Formula]) -> bool
    ensures { result ≡ list_all (is_part variable.now) (forms_in formulas.now) }
{
    for formula in formulas {
        if !is_part(variable, formula) {
            return false;
        }
    }
    true
}

fn is_single_invariant(alloc: Global, formula: &Formula) -> Result<bool, AllocError>
    ensures { IfOk result (λ b. b ≡ is_single_invariant (formula_form formula.now)) }
{
    let Some(fixpoint) = greatest(formula) else {
        return Ok(false);
    };
    let conjuncts = conjuncts_of(alloc, fixpoint.body)?;
    Ok(are_parts(fixpoint.variable, &conjuncts))
}

/// Whether a formula is an invariant: a conjunction of greatest fixpoints `nu X . f`, where f is a
/// conjunction of `[true] X` and of formulas without fixpoints, as `always p` and `no_deadlock`
/// are.
///
/// # Errors
/// Memory was refused.
pub fn is_invariant(alloc: Global, formula: &Formula) -> Result<bool, AllocError>
    ensures { IfOk result (λ b. b ≡ is_invariant (formula_form formula.now)) }
{
    let conjuncts = conjuncts_of(alloc, formula)?;
    for conjunct in &conjuncts {
        if !is_single_invariant(alloc, conjunct)? {
            return Ok(false);
        }
    }
    Ok(true)
}
