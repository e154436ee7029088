//! What can be seen of a term without its surroundings.

ghost use Rattle.std.specs.Prelude.{◌≡◌, not, option_map, string_bytes};
ghost use Rattle.pb_protocol_folding.specs.Folding as folding;
ghost use Rattle.pb_protocol_folding.specs.FoldedModels.{is_name};
ghost use Rattle.pb_protocol_folding.specs.View.{term_of};

use pb_text_tree::{Comparison, Connective, Term};

/// The truth value that a term is written as, if it is one.
#[cycle(truths)]
pub fn truth_value(term: &Term) -> Option<bool>
    ensures { result ≡ folding.truth_value (term_of term.now) }
{
    match term {
        Term::Constant { value, .. } => Some(*value),
        Term::Chain { first, links, .. } => {
            if links.is_empty() {
                return truth_value(first);
            }
            None
        }
        Term::Arithmetic { first, links } => {
            if links.is_empty() {
                return truth_value(first);
            }
            None
        }
        _ => None,
    }
}

/// Whether a term has a truth value, whatever its names stand for.
#[cycle(tests)]
pub(crate) fn is_test(term: &Term) -> bool
    ensures { result ≡ folding.is_test (term_of term.now) }
{
    match term {
        Term::Chain { first, links, .. } => {
            if links.is_empty() {
                return is_test(first);
            }
            true
        }
        Term::Arithmetic { first, links } => {
            if links.is_empty() {
                return is_test(first);
            }
            false
        }
        Term::Constant { .. }
        | Term::Not { .. }
        | Term::Comparison { .. }
        | Term::Quantified { .. } => true,
        Term::Number { .. } | Term::Name(_) | Term::Negative { .. } | Term::Application { .. } =>
            false,
    }
}

/// Whether a term is this name: what is assigned to a variable that is itself.
#[cycle(names)]
pub fn is_itself(variable: &str, term: &Term) -> bool
    ensures { result ≡ is_name variable.now (term_of term.now) }
{
    match term {
        Term::Name(name) => name.text.as_str() == variable,
        Term::Chain { first, links, .. } => {
            if links.is_empty() {
                return is_itself(variable, first);
            }
            false
        }
        Term::Arithmetic { first, links } => {
            if links.is_empty() {
                return is_itself(variable, first);
            }
            false
        }
        _ => false,
    }
}

/// Whether a folded guard is any but `false`.
pub fn is_possible(guard: &Term) -> bool
    ensures { result ≡ not (folding.is_false (term_of guard.now)) }
{
    match truth_value(guard) {
        Some(value) => value,
        None => true,
    }
}
