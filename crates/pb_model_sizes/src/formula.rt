//! How many equations the text of a property has: one for each fixpoint, and one for each operand
//! of a modality that is none of `true`, `false`, a variable and a fixpoint, in each copy that a
//! quantifier makes.

ghost use Rattle.std.specs.Prelude.{◌≡◌, ◌+◌};
ghost use Rattle.pb_typing_declarations.specs.View.{spec_of};
ghost use Rattle.pb_protocol_tree.specs.Form.{formula_form};
ghost use Rattle.pb_model_sizes.specs.Counts.{capped};
ghost use Rattle.pb_model_sizes.specs.Equations.{formula_equations, total_equations, has_own_equation};
ghost use Rattle.pb_model_sizes.specs.Equations.{is_fixpoint_form, one_more};
ghost use Rattle.pb_model_sizes.specs.Links.{links_count};

use crate::count::tuples_of;
use pb_protocol_tree::{Formula, Link};
use pb_typing_declarations::Declarations;

/// Whether an operand of a modality has an equation of its own. A chain without links is its
/// operand.
fn has_own_equation(formula: &Formula) -> bool
    ensures { result ≡ has_own_equation (formula_form formula.now) }
{
    match formula {
        Formula::Constant { .. } => false,
        Formula::Variable(_) => false,
        Formula::Fixpoint { .. } => false,
        Formula::Chain { first, links, .. } => match links.first() {
            Some(_) => true,
            None => has_own_equation(first),
        },
        _ => true,
    }
}

fn is_fixpoint_form(formula: &Formula) -> bool
    ensures { result ≡ is_fixpoint_form (formula_form formula.now) }
{
    match formula {
        Formula::Fixpoint { .. } => true,
        Formula::Chain { first, links, .. } => match links.first() {
            Some(_) => false,
            None => is_fixpoint_form(first),
        },
        _ => false,
    }
}

/// One equation more, where there is one.
fn one_more(is_one: bool, count: u64) -> u64
    ensures { result ≡ capped (one_more is_one count) }
{
    if is_one {
        count.saturating_add(1)
    } else {
        count
    }
}

/// How many equations a formula has.
#[cycle(formulas)]
fn formula_equations(declarations: &Declarations<'_>, formula: &Formula) -> u64
    ensures { result
        ≡ capped (formula_equations (spec_of declarations.now) (formula_form formula.now)) }
{
    match formula {
        Formula::Constant { .. } | Formula::Data { .. } | Formula::Variable(_) => 0,
        Formula::Negation { operand, .. } => formula_equations(declarations, operand),
        Formula::Chain { first, links, .. } => {
            let others = links_count(declarations, links);
            formula_equations(declarations, first).saturating_add(others)
        }
        Formula::Modal { operand, .. } => {
            one_more(
                has_own_equation(operand),
                formula_equations(declarations, operand),
            )
        }
        Formula::Fixpoint { body, .. } => formula_equations(declarations, body).saturating_add(1),
        Formula::Quantified {
            variables,
            body,
            ..
        } => {
            let copies = tuples_of(declarations, variables);
            copies.saturating_mul(formula_equations(declarations, body))
        }
    }
}

/// How many equations the operands of links have together.
#[cycle(formulas)]
fn links_count(declarations: &Declarations<'_>, links: &[Link]) -> u64
    ensures { result ≡ capped (links_count (spec_of declarations.now) links.now) }
{
    let mut sum: u64 = 0;
    for link in links {
        sum = sum.saturating_add(formula_equations(declarations, &link.operand));
    }
    sum
}

/// How many equations the text of a formula has: one that is no fixpoint has one of its own.
pub(crate) fn total_equations(declarations: &Declarations<'_>, formula: &Formula) -> u64
    ensures { result
        ≡ capped (total_equations (spec_of declarations.now) (formula_form formula.now)) }
{
    one_more(
        !is_fixpoint_form(formula),
        formula_equations(declarations, formula),
    )
}
