//! The values of terms that are written as one, and terms of values.

ghost use Rattle.std.specs.Prelude.{◌≡◌, pos, neg_ℤ, IfOk, option_map, string_bytes};
ghost use Rattle.pb_text_meaning.specs.Syntax as syntax;
ghost use Rattle.pb_protocol_folding.specs.Folding as folding;
ghost use Rattle.pb_protocol_folding.specs.View.{spec_of, term_of};

use crate::enumerator::{Sought, place_in};
use pb_text_tree::{Place, SortDeclaration, Term};
use std::alloc::{AllocError, Global};

/// A number that is computed with: one of 32 bits.
fn small_number(number: u64) -> Option<i32>
    ensures { result ≡ folding.small_value (pos number) }
{
    if number <= 2147483647 {
        return Some(number as i32);
    }
    None
}

/// The negation of a number, where it is one of 32 bits.
fn small_negative(number: u64) -> Option<i32>
    ensures { result ≡ folding.small_value (neg_ℤ (pos number)) }
{
    if number <= 2147483648 {
        return Some(-(number as i64) as i32);
    }
    None
}

/// The number that the operand of `-` is, with `-` in front.
#[cycle(negatives)]
fn negative_value(operand: &Term) -> Option<i32>
    ensures { (sorts : _) → result
        ≡ folding.written_value sorts (syntax.Term.Negative (term_of operand.now)) }
{
    match operand {
        Term::Number { value, .. } => small_negative(*value),
        Term::Chain { first, links, .. } => {
            if links.is_empty() {
                return negative_value(first);
            }
            None
        }
        Term::Arithmetic { first, links } => {
            if links.is_empty() {
                return negative_value(first);
            }
            None
        }
        _ => None,
    }
}

/// The place of the enumerator of this name, where there is one.
fn enumerator_value(sorts: &[SortDeclaration], name: &str) -> Option<i32>
    ensures { result
        ≡ folding.written_value (spec_of sorts.now) (syntax.Term.Named name.now) }
{
    match place_in(Sought::Named(name), sorts) {
        Some(place) => small_number(place as u64),
        None => None,
    }
}

/// The value of a term that is written as one: a truth value, a number of 32 bits, or an enumerator
/// of these sorts by its place.
#[cycle(values)]
pub fn written_value(sorts: &[SortDeclaration], term: &Term) -> Option<i32>
    ensures { result ≡ folding.written_value (spec_of sorts.now) (term_of term.now) }
{
    match term {
        Term::Constant { value, .. } => Some(i32::from(*value)),
        Term::Number { value, .. } => small_number(*value),
        Term::Name(name) => enumerator_value(sorts, name.text.as_str()),
        Term::Negative { operand, .. } => negative_value(operand),
        Term::Chain { first, links, .. } => {
            if links.is_empty() {
                return written_value(sorts, first);
            }
            None
        }
        Term::Arithmetic { first, links } => {
            if links.is_empty() {
                return written_value(sorts, first);
            }
            None
        }
        _ => None,
    }
}

/// A whole number as a term.
pub(crate) fn number_term(alloc: Global, place: Place, value: i64) -> Result<Term, AllocError>
    ensures { IfOk result (λ t. term_of t ≡ folding.number value) }
{
    let number = value.unsigned_abs();
    let term = Term::Number {
        place,
        value: number,
    };
    if value >= 0 {
        return Ok(term);
    }
    let operand = Box::new(alloc, term)?;
    Ok(Term::Negative { place, operand })
}
