//! Greatest fixpoints, and `[true] X` in their bodies. A chain without links is its operand.

ghost use Rattle.std.specs.Prelude.{◌≡◌};
ghost use Rattle.pb_model_tree.specs.Form.{formula_form, step_set_form};
ghost use Rattle.pb_model_invariants.specs.Invariants.{greatest_fixpoint, is_all, is_box};
ghost use Rattle.pb_model_invariants.specs.Invariants.{is_onward, is_variable};
ghost use Rattle.pb_model_invariants.specs.Links.{greatest_found};

use pb_fixpoint::Sign;
use pb_model_tree::{Formula, Modality, StepSet};

/// A greatest fixpoint: the name of its variable, and its body.
#[derive(Clone, Copy)]
pub(crate) struct GreatestFixpoint<'a> {
    pub variable: &'a str,
    pub body: &'a Formula,
}

/// The greatest fixpoint that a formula is.
pub(crate) fn greatest(formula: &Formula) -> Option<GreatestFixpoint<'_>>
    ensures { greatest_found result ≡ greatest_fixpoint (formula_form formula.now) }
{
    match formula {
        Formula::Fixpoint {
            sign,
            variable,
            body,
            ..
        } => match sign {
            Sign::Nu => Some(GreatestFixpoint {
                variable: &variable.text,
                body,
            }),
            Sign::Mu => None,
        },
        Formula::Chain { first, links, .. } => match links.first() {
            Some(_) => None,
            None => greatest(first),
        },
        _ => None,
    }
}

/// Whether a formula is the variable of this name.
fn is_variable(name: &str, formula: &Formula) -> bool
    ensures { result ≡ is_variable name.now (formula_form formula.now) }
{
    match formula {
        Formula::Variable(variable) => variable.text.as_str() == name,
        Formula::Chain { first, links, .. } => match links.first() {
            Some(_) => false,
            None => is_variable(name, first),
        },
        _ => false,
    }
}

/// Whether a modality is `[A]`.
fn is_box(modality: Modality) -> bool
    ensures { result ≡ is_box modality }
{
    match modality {
        Modality::Box => true,
        Modality::Diamond => false,
    }
}

/// Whether a set of steps is that of all. A union without links is its operand.
fn is_all(steps: &StepSet) -> bool
    ensures { result ≡ is_all (step_set_form steps.now) }
{
    match steps {
        StepSet::All { .. } => true,
        StepSet::Union { first, links } => match links.first() {
            Some(_) => false,
            None => is_all(first),
        },
        _ => false,
    }
}

/// Whether a formula is `[true] X`, for the variable X of this name.
pub(crate) fn is_onward(name: &str, formula: &Formula) -> bool
    ensures { result ≡ is_onward name.now (formula_form formula.now) }
{
    match formula {
        Formula::Modal {
            modality,
            steps,
            operand,
            ..
        } => {
            if !is_box(*modality) {
                return false;
            }
            if !is_all(steps) {
                return false;
            }
            is_variable(name, operand)
        }
        Formula::Chain { first, links, .. } => match links.first() {
            Some(_) => false,
            None => is_onward(name, first),
        },
        _ => false,
    }
}
