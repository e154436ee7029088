//! Terms in which no quantifier stands and nothing is counted.

ghost use Rattle.std.specs.Prelude.{◌≡◌, map};
ghost use Rattle.std.specs.List.{list_all};
ghost use Rattle.pb_text_tree.specs.Form.{argument_forms, term_form};
ghost use Rattle.pb_protocol_unfolder.specs.Plain as plain;
ghost use Rattle.pb_protocol_unfolder.specs.View.{operand_form, operation_form};

use pb_text_counting::is_counting;
use pb_text_tree::{Argument, ArithmeticLink, Term, TermLink};

#[cycle(plain_terms)]
fn are_plain_links(links: &[TermLink]) -> bool
    ensures { result ≡ list_all plain.is_plain_term (map operand_form links.now) }
{
    for link in links {
        if !is_plain_term(&link.operand) {
            return false;
        }
    }
    true
}

#[cycle(plain_terms)]
fn are_plain_operations(links: &[ArithmeticLink]) -> bool
    ensures { result ≡ list_all plain.is_plain_term (map operation_form links.now) }
{
    for link in links {
        if !is_plain_term(&link.operand) {
            return false;
        }
    }
    true
}

/// Whether no quantifier stands in arguments.
#[cycle(plain_terms)]
pub(crate) fn are_plain_arguments(arguments: &[Argument]) -> bool
    ensures { result ≡ plain.are_plain_arguments (argument_forms arguments.now) }
{
    for argument in arguments {
        if !is_plain_term(&argument.term) {
            return false;
        }
    }
    true
}

/// Whether no quantifier stands in a term, and nothing is counted.
#[cycle(plain_terms)]
pub(crate) fn is_plain_term(term: &Term) -> bool
    ensures { result ≡ plain.is_plain_term (term_form term.now) }
{
    match term {
        Term::Constant { .. } | Term::Number { .. } | Term::Name(_) => true,
        Term::Not { operand, .. } => is_plain_term(operand),
        Term::Negative { operand, .. } => is_plain_term(operand),
        Term::Chain { first, links, .. } => {
            if !is_plain_term(first) {
                return false;
            }
            are_plain_links(links)
        }
        Term::Comparison { left, right, .. } => {
            if !is_plain_term(left) {
                return false;
            }
            is_plain_term(right)
        }
        Term::Arithmetic { first, links } => {
            if !is_plain_term(first) {
                return false;
            }
            are_plain_operations(links)
        }
        Term::Application {
            function,
            arguments,
        } => {
            if is_counting(function.text.as_str()) {
                return false;
            }
            are_plain_arguments(arguments)
        }
        Term::Quantified { .. } => false,
    }
}
