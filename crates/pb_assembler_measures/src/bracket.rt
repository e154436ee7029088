//! The kinds of brackets that the code of formulas opens.

ghost use Rattle.std.specs.Prelude.{◌≡◌};
ghost use Rattle.pb_normal.specs.View.{formula_view};
ghost use Rattle.pb_assembler_scheme.specs.Scheme.{head, junction_of};

use pb_normal::{Formula, Junction};
use pb_text_tree::Quantifier;

/// The kind of the bracket that a quantifier's instances stand in.
pub fn junction_of(quantifier: Quantifier) -> Junction
    ensures { result ≡ junction_of quantifier }
{
    match quantifier {
        Quantifier::Forall => Junction::Conjunction,
        Quantifier::Exists => Junction::Disjunction,
    }
}

/// The kind of the outermost bracket of a formula's code.
#[cycle(heads)]
pub fn outermost(formula: &Formula<'_>) -> Junction
    ensures { result ≡ head (formula_view formula.now) }
{
    match formula {
        Formula::Test { .. } | Formula::Call { .. } => Junction::Disjunction,
        Formula::Join {
            junction,
            first,
            rest,
        } => {
            if rest.is_empty() {
                outermost(first)
            } else {
                *junction
            }
        }
        Formula::Each {
            quantifier,
            carriers,
            body,
            ..
        } => {
            if carriers.is_empty() {
                outermost(body)
            } else {
                junction_of(*quantifier)
            }
        }
    }
}
