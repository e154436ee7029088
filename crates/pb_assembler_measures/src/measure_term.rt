//! How much the code of data terms takes.

ghost use Rattle.std.specs.Prelude.{◌≡◌};
ghost use Rattle.pb_text_meaning.specs.Erase.{of_comparison, of_connective};
ghost use Rattle.pb_typing_tree.specs.Tree.{Binary};
ghost use Rattle.pb_typing_tree.specs.View.{term_of_operands, chained_formula, link_views, term_view, term_views};
ghost use Rattle.pb_assembler_measures.specs.MeasureTerms.{both, capped_load, choice_load, connective_load};
ghost use Rattle.pb_assembler_measures.specs.MeasureTerms.{single, term_load, followed};

use crate::measure_load::{Load, both, chosen, followed, single};
use pb_text_tree::Connective;
use pb_typing_tree::{Link, Term};

/// How many instructions a term's code has, and how many operands it holds at most.
#[cycle(measures)]
pub(crate) fn measure_term(term: &Term) -> Load
    ensures { result ≡ capped_load (term_load (term_view term.now)) }
{
    match term {
        Term::Constant(_) | Term::Number(_) | Term::Slot(_) | Term::Enumerator(_) => single(),
        Term::Not(operand) => measure_one(operand),
        Term::Negative(operand) => measure_one(operand),
        Term::Absolute(operand) => measure_one(operand),
        Term::Successor(operand) => measure_beside(operand),
        Term::Predecessor(operand) => measure_beside(operand),
        Term::Recognised { operand, .. } => measure_beside(operand),
        Term::Comparison {
            comparison,
            left,
            right,
        } => measure_comparison(*comparison, left, right),
        Term::Choice {
            condition,
            positive,
            negative,
        } => measure_choice(condition, positive, negative),
        Term::Maximum(left, right) => measure_two(left, right),
        Term::Minimum(left, right) => measure_two(left, right),
        Term::Chain {
            connective,
            first,
            links,
        } => measure_chain(*connective, first, links),
        Term::Arithmetic { first, links } => measure_arithmetic(first, links),
    }
}

/// An operand, then an instruction.
#[cycle(measures)]
pub(crate) fn measure_one(operand: &Term) -> Load
    ensures { result ≡ capped_load (followed (term_load (term_view operand.now))) }
{
    followed(measure_term(operand))
}

/// Two operands in order, then an instruction.
#[cycle(measures)]
fn measure_two(left: &Term, right: &Term) -> Load
    ensures { result ≡ capped_load (followed (both (term_load (term_view left.now))
        (term_load (term_view right.now)))) }
{
    let left = measure_term(left);
    let right = measure_term(right);
    followed(both(left, right))
}

/// A comparison of two operands.
#[cycle(measures)]
fn measure_comparison(comparison: pb_text_tree::Comparison, left: &Term, right: &Term) -> Load
    ensures { result ≡ capped_load (term_load
        (Binary (of_comparison comparison) (term_view left.now) (term_view right.now))) }
{
    match comparison {
        pb_text_tree::Comparison::Equal => measure_two(left, right),
        pb_text_tree::Comparison::NotEqual => measure_two(left, right),
        pb_text_tree::Comparison::Less => measure_two(left, right),
        pb_text_tree::Comparison::LessEqual => measure_two(left, right),
        pb_text_tree::Comparison::Greater => measure_two(left, right),
        pb_text_tree::Comparison::GreaterEqual => measure_two(left, right),
    }
}

/// An operand, a constant, then an instruction.
#[cycle(measures)]
fn measure_beside(operand: &Term) -> Load
    ensures { result ≡ capped_load (followed (both (term_load (term_view operand.now)) single)) }
{
    let operand = measure_term(operand);
    followed(both(operand, single()))
}

/// One of two operands, as the condition says.
#[cycle(measures)]
fn measure_choice(condition: &Term, positive: &Term, negative: &Term) -> Load
    ensures { result ≡ capped_load (choice_load (term_load (term_view condition.now))
        (term_load (term_view positive.now)) (term_load (term_view negative.now))) }
{
    let condition = measure_term(condition);
    let positive = measure_term(positive);
    let negative = measure_term(negative);
    chosen(condition, positive, negative)
}

/// What follows, then an operand of a connective, and its instruction.
fn connected(connective: Connective, behind: Load, operand: Load) -> Load
    ensures { result ≡ capped_load (connective_load connective behind operand) }
{
    match connective {
        Connective::And | Connective::Or => followed(both(behind, operand)),
        Connective::Implies => followed(followed(both(behind, operand))),
    }
}

/// Operands of one connective, the last one first.
#[cycle(measures)]
fn measure_chain(connective: Connective, first: &Term, links: &[Term]) -> Load
    ensures { result ≡ capped_load (term_load
        (chained_formula (Binary (of_connective connective)) (term_view first.now)
        (term_views links.now))) }
{
    if links.is_empty() {
        return measure_term(first);
    }
    let mut left = links.len() - 1;
    let mut load = measure_term(&links[left]);
    while left > 0 {
        left -= 1;
        let operand = measure_term(&links[left]);
        load = connected(connective, load, operand);
    }
    let operand = measure_term(first);
    connected(connective, load, operand)
}

/// Operands of arithmetic, the first one first.
#[cycle(measures)]
fn measure_arithmetic(first: &Term, links: &[Link]) -> Load
    ensures { result ≡ capped_load (term_load
        (term_of_operands (term_view first.now) (link_views links.now))) }
{
    let mut load = measure_term(first);
    for link in links {
        let operand = measure_term(&link.operand);
        load = followed(both(load, operand));
    }
    load
}
