//! The value of a typed data term over slots.

ghost use Rattle.std.specs.Prelude.{◌≡◌, length};
ghost use Rattle.pb_text_meaning.specs.Erase.{of_connective};
ghost use Rattle.pb_typing_tree.specs.Fits.{Fits};
ghost use Rattle.pb_typing_tree.specs.Meaning as meaning;
ghost use Rattle.pb_typing_tree.specs.Tree.{Binary};
ghost use Rattle.pb_typing_tree.specs.View.{term_of_operands, chained_formula, link_views, term_view};
ghost use Rattle.pb_typing_tree.specs.View.{term_views};
ghost use Rattle.pb_typing_values.specs.Slots.{slots_of};

use crate::operation::{calculate, compares, decided_by, is_true};
use pb_text_tree::Connective;
use pb_typing_tree::{Link, Term};

/// The value of a data term over these slots: false is 0 and true is 1, an enumerator is its place.
///
/// Each value on the way must be within 2^62 and each divisor at least 1, as type checking ensures.
/// Recursion goes as deep as terms nest.
#[cycle(terms)]
pub fn value(term: &Term, slots: &[i64]) -> i64
    requires { Fits (length slots.now) (slots_of slots.now) (term_view term.now) }
    ensures { result ≡ meaning.value (slots_of slots.now) (term_view term.now) }
{
    match term {
        Term::Constant(truth) => i64::from(*truth),
        Term::Number(number) => *number as i64,
        Term::Enumerator(enumerator) => i64::from(enumerator.place),
        Term::Slot(slot) => slots[*slot],
        Term::Not(operand) => i64::from(!is_true(value(operand, slots))),
        Term::Negative(operand) => -value(operand, slots),
        Term::Absolute(operand) => value(operand, slots).abs(),
        Term::Successor(operand) => value(operand, slots) + 1,
        Term::Predecessor(operand) => value(operand, slots) - 1,
        Term::Chain {
            connective,
            first,
            links,
        } => chain_value(*connective, first, links, slots),
        Term::Comparison {
            comparison,
            left,
            right,
        } => i64::from(compares(*comparison, value(left, slots), value(right, slots))),
        Term::Arithmetic { first, links } => arithmetic_value(first, links, slots),
        Term::Maximum(left, right) => value(left, slots).max(value(right, slots)),
        Term::Minimum(left, right) => value(left, slots).min(value(right, slots)),
        Term::Choice {
            condition,
            positive,
            negative,
        } => {
            if is_true(value(condition, slots)) {
                value(positive, slots)
            } else {
                value(negative, slots)
            }
        }
        Term::Recognised {
            enumerator,
            operand,
        } => i64::from(value(operand, slots) == i64::from(enumerator.place)),
    }
}

/// The value of a chain of one connective.
#[cycle(terms)]
fn chain_value(connective: Connective, first: &Term, links: &[Term], slots: &[i64]) -> i64
    requires { Fits (length slots.now) (slots_of slots.now)
        (chained_formula (Binary (of_connective connective)) (term_view first.now)
        (term_views links.now)) }
    ensures { result ≡ meaning.value (slots_of slots.now)
        (chained_formula (Binary (of_connective connective)) (term_view first.now)
        (term_views links.now)) }
{
    let mut current = value(first, slots);
    for link in links {
        if let Some(decided) = decided_by(connective, is_true(current)) {
            return i64::from(decided);
        }
        current = i64::from(is_true(value(link, slots)));
    }
    current
}

/// The value of a chain of arithmetic.
#[cycle(terms)]
fn arithmetic_value(first: &Term, links: &[Link], slots: &[i64]) -> i64
    requires { Fits (length slots.now) (slots_of slots.now)
        (term_of_operands (term_view first.now) (link_views links.now)) }
    ensures { result ≡ meaning.value (slots_of slots.now)
        (term_of_operands (term_view first.now) (link_views links.now)) }
{
    let mut current = value(first, slots);
    for link in links {
        current = calculate(link.operator, current, value(&link.operand, slots));
    }
    current
}
