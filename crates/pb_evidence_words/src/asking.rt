//! Whether a property's text asks a test, beside the guards of steps.

ghost use Rattle.std.specs.Prelude.{◌≡◌};
ghost use Rattle.pb_text_tree.specs.Form.{formula_form};
ghost use Rattle.pb_model_words.specs.View.{vocabulary_of};
ghost use Rattle.pb_evidence_words.specs.Asking.{asks_test, is_guard};

use pb_model_words::{Vocabulary, has_step};
use pb_text_tree::{Formula, Place};

/// Whether an operand is a conjunct of a guard, where the connective behind it stands here.
fn is_guard(here: Place, operand: &Formula) -> bool
    ensures { result ≡ is_guard here (formula_form operand.now) }
{
    match operand {
        Formula::Value { place, .. } => place.line == here.line && place.column == here.column,
        Formula::Chain { first, links, .. } => links.is_empty() && is_guard(here, first),
        Formula::Constant { .. }
        | Formula::Instance(_)
        | Formula::Negation { .. }
        | Formula::Quantified { .. } => false,
    }
}

/// Whether a formula asks a test, beside the guards of steps.
pub(crate) fn asks_test(vocabulary: &Vocabulary<'_>, formula: &Formula) -> bool
    ensures { result ≡ asks_test (vocabulary_of vocabulary.now) (formula_form formula.now) }
{
    match formula {
        Formula::Constant { place, .. } => !has_step(vocabulary, *place),
        Formula::Value { .. } => true,
        Formula::Instance(_) => false,
        Formula::Negation { operand, .. } => asks_test(vocabulary, operand),
        Formula::Chain { first, links, .. } => {
            let mut operand: &Formula = first;
            let mut asks = asks_test(vocabulary, first);
            for link in links.iter() {
                if asks && !is_guard(link.place, operand) {
                    return true;
                }
                operand = &link.operand;
                asks = asks_test(vocabulary, &link.operand);
            }
            asks
        }
        Formula::Quantified { body, .. } => asks_test(vocabulary, body),
    }
}
