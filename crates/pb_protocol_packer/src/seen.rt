//! What is seen of a term's value: a truth value, an enumerator, or a number that is written.

ghost use Rattle.std.specs.Prelude.{◌≡◌, codes};
ghost use Rattle.pb_text_meaning.specs.Syntax.{same_name};
ghost use Rattle.pb_protocol_packing.specs.Numbers as numbers;
ghost use Rattle.pb_protocol_packer.specs.View.{chooses, term_of, terms_of, name_bytes, texts_of};
ghost use Rattle.pb_protocol_packer.specs.Written.{negated_in, written_in, written_number};
ghost use Rattle.pb_protocol_packer.specs.Written.{written_of};

use crate::enumerators::place_among;
use pb_text_tree::{Argument, Name, Term};

/// A term that is one token.
#[derive(Clone, Copy)]
pub(crate) enum Written<'a> {
    Truth(bool),
    Number(u64),
    Name(&'a Name),
    Other,
}

/// What is written where a term is one token. A chain without links is its operand.
pub(crate) fn as_written(term: &Term) -> Written<'_>
    ensures { written_of result ≡ written_in (term_of term.now) }
{
    match term {
        Term::Constant { value, .. } => Written::Truth(*value),
        Term::Number { value, .. } => Written::Number(*value),
        Term::Name(name) => Written::Name(name),
        Term::Chain { first, links, .. } => match links.first() {
            Some(_) => Written::Other,
            None => as_written(first),
        },
        Term::Arithmetic { first, links } => match links.first() {
            Some(_) => Written::Other,
            None => as_written(first),
        },
        _ => Written::Other,
    }
}

/// The negation of a number that is written.
fn negated_number(operand: &Term) -> Option<i128>
    ensures { result ≡ negated_in (written_in (term_of operand.now)) }
{
    match as_written(operand) {
        Written::Number(value) => Some(-i128::from(value)),
        _ => None,
    }
}

/// The whole number that a term is written as, `-` included.
pub(crate) fn written_number(term: &Term) -> Option<i128>
    ensures { result ≡ written_number (term_of term.now) }
{
    match term {
        Term::Number { value, .. } => Some(i128::from(*value)),
        Term::Negative { operand, .. } => negated_number(operand),
        Term::Chain { first, links, .. } => match links.first() {
            Some(_) => None,
            None => written_number(first),
        },
        Term::Arithmetic { first, links } => match links.first() {
            Some(_) => None,
            None => written_number(first),
        },
        _ => None,
    }
}

/// Whether a function is `if`.
pub(crate) fn is_choice(function: &Name) -> bool
    ensures { result ≡ same_name (name_bytes function.now) (codes "if") }
{
    function.text.as_str() == "if"
}

/// Whether both that `if` chooses from are seen to give truth values.
#[cycle(truths)]
fn are_truths(arguments: &[Argument]) -> bool
    ensures { result ≡ chooses numbers.is_truth (terms_of arguments.now) }
{
    if arguments.len() != 3 {
        return false;
    }
    if !is_truth(&arguments[1].term) {
        return false;
    }
    is_truth(&arguments[2].term)
}

/// Whether a term is seen to give a truth value.
#[cycle(truths)]
pub(crate) fn is_truth(term: &Term) -> bool
    ensures { result ≡ numbers.is_truth (term_of term.now) }
{
    match term {
        Term::Constant { .. }
        | Term::Not { .. }
        | Term::Comparison { .. }
        | Term::Quantified { .. } => true,
        Term::Number { .. } | Term::Name(_) | Term::Negative { .. } => false,
        Term::Chain { first, links, .. } => match links.first() {
            Some(_) => true,
            None => is_truth(first),
        },
        Term::Arithmetic { first, links } => match links.first() {
            Some(_) => false,
            None => is_truth(first),
        },
        Term::Application {
            function,
            arguments,
        } => {
            if !is_choice(function) {
                return false;
            }
            are_truths(arguments)
        }
    }
}

/// Whether both that `if` chooses from are seen to give one of the enumerators.
#[cycle(enumerators)]
fn are_enumerators(enumerators: &[Name], arguments: &[Argument]) -> bool
    ensures { result
        ≡ chooses (numbers.is_enumerator (texts_of enumerators.now)) (terms_of arguments.now) }
{
    if arguments.len() != 3 {
        return false;
    }
    if !is_enumerator(enumerators, &arguments[1].term) {
        return false;
    }
    is_enumerator(enumerators, &arguments[2].term)
}

/// Whether a term is seen to give one of the enumerators.
#[cycle(enumerators)]
pub(crate) fn is_enumerator(enumerators: &[Name], term: &Term) -> bool
    ensures { result ≡ numbers.is_enumerator (texts_of enumerators.now) (term_of term.now) }
{
    match term {
        Term::Name(name) => place_among(enumerators, &name.text).is_some(),
        Term::Chain { first, links, .. } => match links.first() {
            Some(_) => false,
            None => is_enumerator(enumerators, first),
        },
        Term::Arithmetic { first, links } => match links.first() {
            Some(_) => false,
            None => is_enumerator(enumerators, first),
        },
        Term::Application {
            function,
            arguments,
        } => {
            if !is_choice(function) {
                return false;
            }
            are_enumerators(enumerators, arguments)
        }
        _ => false,
    }
}
