//! Digits of numbers in a mixed radix, and sums of them, as terms.

ghost use Rattle.std.specs.Prelude.{◌≡◌, IfOk};
ghost use Rattle.pb_protocol_packing.specs.Numbers as numbers;
ghost use Rattle.pb_protocol_packer.specs.View.{term_of};
ghost use Rattle.pb_protocol_packer.specs.Written.{below_in, written_in};

use crate::builder::Builder;
use crate::seen::{Written, as_written};
use pb_text_tree::{Arithmetic, Term};
use std::alloc::AllocError;

/// A term so many times, where that isn't once.
pub(crate) fn times(builder: Builder, term: Term, number: u32) -> Result<Term, AllocError>
    ensures { IfOk result (λ t. term_of t ≡ numbers.times (term_of term) number) }
{
    if number == 1 {
        return Ok(term);
    }
    builder.computed(Arithmetic::Times, term, builder.number(u64::from(number)))
}

/// The quotient by a number that isn't 1.
fn divided(builder: Builder, term: Term, number: u32) -> Result<Term, AllocError>
    ensures { IfOk result (λ t. term_of t ≡ numbers.divided (term_of term) number) }
{
    if number == 1 {
        return Ok(term);
    }
    builder.computed(Arithmetic::Div, term, builder.number(u64::from(number)))
}

/// The remainder.
fn rest(builder: Builder, term: Term, number: u32) -> Result<Term, AllocError>
    ensures { IfOk result (λ t. term_of t ≡ numbers.rest (term_of term) number) }
{
    builder.computed(Arithmetic::Mod, term, builder.number(u64::from(number)))
}

/// The digits of a term that count less than `end`, and `weight` at least, where the term is below
/// `limit`.
pub(crate) fn between(
    builder: Builder,
    limit: u32,
    end: u32,
    weight: u32,
    term: Term,
) -> Result<Term, AllocError>
    ensures { IfOk result (λ t. term_of t
        ≡ numbers.between limit end weight (term_of term)) }
{
    if end == limit {
        return divided(builder, term, weight);
    }
    let remainder = rest(builder, term, end)?;
    divided(builder, remainder, weight)
}

/// The number that a term is, where it is below a limit.
fn written_below(term: &Term, limit: u32) -> Option<u32>
    ensures { result ≡ below_in limit (written_in (term_of term.now)) }
{
    match as_written(term) {
        Written::Number(value) => {
            if value < u64::from(limit) {
                return Some(value as u32);
            }
            None
        }
        _ => None,
    }
}

/// A term so many times, as one number where it is written as a number below a limit.
pub(crate) fn scaled(
    builder: Builder,
    limit: u32,
    term: Term,
    number: u32,
) -> Result<Term, AllocError>
    ensures { IfOk result (λ t. term_of t ≡ numbers.scaled limit (term_of term) number) }
{
    match written_below(&term, limit) {
        Some(value) => {
            drop(term);
            Ok(builder.number(u64::from(value) * u64::from(number)))
        }
        None => times(builder, term, number),
    }
}

/// Whether a term is written as 0.
fn is_zero(term: &Term) -> bool
    ensures { result ≡ numbers.is_zero (term_of term.now) }
{
    match as_written(term) {
        Written::Number(value) => value == 0,
        _ => false,
    }
}

/// The sum of two terms, where neither is written as 0.
pub(crate) fn plus(builder: Builder, left: Term, right: Term) -> Result<Term, AllocError>
    ensures { IfOk result (λ t. term_of t ≡ numbers.plus (term_of left) (term_of right)) }
{
    if is_zero(&left) {
        drop(left);
        return Ok(right);
    }
    if is_zero(&right) {
        drop(right);
        return Ok(left);
    }
    builder.computed(Arithmetic::Plus, left, right)
}
