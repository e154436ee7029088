//! Whether a formula has equations of its own, and whether what is quantified in it has.

ghost use Rattle.std.specs.Prelude.{◌≡◌, true};
ghost use Rattle.pb_protocol_meaning.specs.Syntax.{Protocol};
ghost use Rattle.pb_protocol_symmetry_unfolded.specs.Laws.{IsQuantifiedAlone};
ghost use Rattle.pb_protocol_quantified_alone.specs.Alone.{AreAlone, HaveNone, HasNone, IsBare};
ghost use Rattle.pb_protocol_quantified_alone.specs.Alone.{formula_said};

use pb_protocol_tree::{Formula, Link};

/// Whether a formula is a truth value or a fixpoint's variable, which have no equation as operands
/// either.
fn is_bare(formula: &Formula) -> bool
    ensures { result ≡ true → (m : Protocol) → IsBare m (formula_said formula.now) }
{
    match formula {
        Formula::Constant { .. } | Formula::Variable(_) => true,
        _ => false,
    }
}

#[cycle(equations)]
fn have_none(links: &[Link]) -> bool
    ensures { result ≡ true → (m : Protocol) → HaveNone m links.now }
{
    for link in links {
        if !has_none(&link.operand) {
            return false;
        }
    }
    true
}

/// Whether a formula has no equation of its own.
#[cycle(equations)]
fn has_none(formula: &Formula) -> bool
    ensures { result ≡ true → (m : Protocol) → HasNone m (formula_said formula.now) }
{
    match formula {
        Formula::Constant { .. } | Formula::Data { .. } | Formula::Variable(_) => true,
        Formula::Negation { operand, .. } => has_none(operand),
        Formula::Chain { first, links, .. } => {
            if !has_none(first) {
                return false;
            }
            have_none(links)
        }
        Formula::Modal { operand, .. } => is_bare(operand),
        Formula::Fixpoint { .. } => false,
        Formula::Quantified { body, .. } => has_none(body),
    }
}

#[cycle(quantified)]
fn are_alone(links: &[Link]) -> bool
    ensures { result ≡ true → (m : Protocol) → AreAlone m links.now }
{
    for link in links {
        if !is_quantified_alone(&link.operand) {
            return false;
        }
    }
    true
}

/// Whether no quantified formula has an equation of its own when it is written out. It may refuse
/// one that has none.
#[cycle(quantified)]
pub fn is_quantified_alone(formula: &Formula) -> bool
    ensures { result ≡ true → (m : Protocol) → IsQuantifiedAlone m (formula_said formula.now) }
{
    match formula {
        Formula::Constant { .. } | Formula::Data { .. } | Formula::Variable(_) => true,
        Formula::Negation { operand, .. } => is_quantified_alone(operand),
        Formula::Chain { first, links, .. } => {
            if !is_quantified_alone(first) {
                return false;
            }
            are_alone(links)
        }
        Formula::Modal { operand, .. } => is_quantified_alone(operand),
        Formula::Fixpoint { body, .. } => is_quantified_alone(body),
        Formula::Quantified { body, .. } => has_none(body),
    }
}
