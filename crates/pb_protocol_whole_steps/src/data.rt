//! Terms in which names stand as data alone: not within arguments, indices and divisors.

ghost use Rattle.std.specs.Prelude.{◌≡◌, map};
ghost use Rattle.std.specs.List.{list_all};
ghost use Rattle.pb_protocol_folding.specs.View.{term_of, terms_of};
ghost use Rattle.pb_protocol_unfolding.specs.Whole as whole;
ghost use Rattle.pb_protocol_whole_steps.specs.View.{divides, is_data_link, is_data_operation};
ghost use Rattle.pb_protocol_whole_steps.specs.View.{name_in};

use crate::names::is_among;
use pb_text_tree::{Argument, Arithmetic, ArithmeticLink, Name, Term, TermLink};

/// Whether an operator has a divisor.
fn is_division(operator: Arithmetic) -> bool
    ensures { result ≡ divides operator }
{
    match operator {
        Arithmetic::Div | Arithmetic::Mod => true,
        Arithmetic::Plus | Arithmetic::Minus | Arithmetic::Times => false,
    }
}

#[cycle(data_terms)]
fn are_data_links(own: &[&Name], free: bool, links: &[TermLink]) -> bool
    ensures { result ≡ list_all (is_data_link (map name_in own.now) free) links.now }
{
    for link in links {
        if !is_data(own, free, &link.operand) {
            return false;
        }
    }
    true
}

#[cycle(data_terms)]
fn are_data_operations(own: &[&Name], free: bool, links: &[ArithmeticLink]) -> bool
    ensures { result ≡ list_all (is_data_operation (map name_in own.now) free) links.now }
{
    for link in links {
        let stays_free = free && !is_division(link.operator);
        if !is_data(own, stays_free, &link.operand) {
            return false;
        }
    }
    true
}

/// Whether none of these names stands in arguments.
#[cycle(data_terms)]
pub(crate) fn are_absent(own: &[&Name], arguments: &[Argument]) -> bool
    ensures { result ≡ whole.are_absent (map name_in own.now) (terms_of arguments.now) }
{
    for argument in arguments {
        if !is_data(own, false, &argument.term) {
            return false;
        }
    }
    true
}

/// Whether these names stand in a term as data alone; where they aren't free, whether none of them
/// stands in it.
#[cycle(data_terms)]
pub(crate) fn is_data(own: &[&Name], free: bool, term: &Term) -> bool
    ensures { result ≡ whole.is_data (map name_in own.now) free (term_of term.now) }
{
    match term {
        Term::Constant { .. } | Term::Number { .. } => true,
        Term::Name(name) => free || !is_among(own, name.text.as_str()),
        Term::Not { operand, .. } => is_data(own, free, operand),
        Term::Negative { operand, .. } => is_data(own, free, operand),
        Term::Chain { first, links, .. } => {
            if !is_data(own, free, first) {
                return false;
            }
            are_data_links(own, free, links)
        }
        Term::Comparison { left, right, .. } => {
            if !is_data(own, free, left) {
                return false;
            }
            is_data(own, free, right)
        }
        Term::Arithmetic { first, links } => {
            if !is_data(own, free, first) {
                return false;
            }
            are_data_operations(own, free, links)
        }
        Term::Application { arguments, .. } => are_absent(own, arguments),
        Term::Quantified { body, .. } => is_data(own, free, body),
    }
}
