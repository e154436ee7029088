//! The enumerators of a sort and their places, in terms.

ghost use Rattle.std.specs.Prelude.{◌≡◌, IfOk};
ghost use Rattle.pb_text_meaning.specs.Syntax as syntax;
ghost use Rattle.pb_protocol_packing.specs.Numbers as numbers;
ghost use Rattle.pb_protocol_packer.specs.View.{term_of, name_bytes, texts_of};

use crate::builder::Builder;
use pb_base::both;
use pb_text_tree::{Comparison, Connective, Name, Term, copy_term};
use std::alloc::AllocError;

/// The place of an enumerator's name.
pub(crate) fn place_among(enumerators: &[Name], name: &str) -> Option<usize>
    ensures { result ≡ numbers.place_among 0 (texts_of enumerators.now) name.now }
{
    for index in 0..enumerators.len() {
        if enumerators[index].text.as_str() == name {
            return Some(index);
        }
    }
    None
}

/// Whether a term has the number as its value.
fn is_number(builder: Builder, term: &Term, number: usize) -> Result<Term, AllocError>
    ensures { IfOk result (λ t. term_of t ≡ syntax.Term.Binary syntax.Operator.Equal
        (term_of term.now) (syntax.Term.Number number)) }
{
    let left = copy_term(builder.alloc, term)?;
    builder.compared(Comparison::Equal, left, builder.number(number as u64))
}

/// Whether a term has an enumerator as its value.
fn is_enumerator(builder: Builder, term: &Term, enumerator: &Name) -> Result<Term, AllocError>
    ensures { IfOk result (λ t. term_of t ≡ syntax.Term.Binary syntax.Operator.Equal
        (term_of term.now) (syntax.Term.Named (name_bytes enumerator.now))) }
{
    let left = copy_term(builder.alloc, term)?;
    let (left, right) = both(left, builder.name(enumerator))?;
    builder.compared(Comparison::Equal, left, right)
}

/// The enumerator at the place that a term gives.
pub(crate) fn enumerator_at(
    builder: Builder,
    enumerators: &[Name],
    place: &Term,
) -> Result<Term, AllocError>
    ensures { IfOk result (λ t. term_of t
        ≡ numbers.enumerator_at 0 (texts_of enumerators.now) (term_of place.now)) }
{
    if enumerators.is_empty() {
        return copy_term(builder.alloc, place);
    }
    let last = enumerators.len() - 1;
    let mut term = builder.name(&enumerators[last])?;
    for index in (0..last).rev() {
        let (other, condition) = both(term, is_number(builder, place, index))?;
        let Ok(chosen) = builder.name(&enumerators[index]) else {
            drop(condition);
            drop(other);
            return Err(AllocError);
        };
        term = builder.either(condition, chosen, other)?;
    }
    Ok(term)
}

/// The place of the enumerator that a term gives.
pub(crate) fn place_of(
    builder: Builder,
    enumerators: &[Name],
    value: &Term,
) -> Result<Term, AllocError>
    ensures { IfOk result (λ t. term_of t
        ≡ numbers.place_of 0 (texts_of enumerators.now) (term_of value.now)) }
{
    if enumerators.is_empty() {
        return copy_term(builder.alloc, value);
    }
    let last = enumerators.len() - 1;
    let mut term = builder.number(last as u64);
    for index in (0..last).rev() {
        let condition = is_enumerator(builder, value, &enumerators[index]);
        let (other, condition) = both(term, condition)?;
        term = builder.either(condition, builder.number(index as u64), other)?;
    }
    Ok(term)
}

/// Whether a term gives one of the enumerators.
pub(crate) fn is_one_of(
    builder: Builder,
    enumerators: &[Name],
    value: &Term,
) -> Result<Term, AllocError>
    ensures { IfOk result (λ t. term_of t
        ≡ numbers.is_one_of (texts_of enumerators.now) (term_of value.now)) }
{
    if enumerators.is_empty() {
        return Ok(builder.truth(false));
    }
    let last = enumerators.len() - 1;
    let mut term = is_enumerator(builder, value, &enumerators[last])?;
    for index in (0..last).rev() {
        let (others, test) = both(term, is_enumerator(builder, value, &enumerators[index]))?;
        term = builder.connected(Connective::Or, test, others)?;
    }
    Ok(term)
}
