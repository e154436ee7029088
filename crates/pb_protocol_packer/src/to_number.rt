//! The numbers of values that are assigned, and tests whether these are values of the variable.

ghost use Rattle.std.specs.Prelude.{◌≡◌, pos, ◌-ℤ◌, ◌+ℤ◌, IfOk};
ghost use Rattle.pb_text_meaning.specs.Syntax as syntax;
ghost use Rattle.pb_protocol_packing.specs.Numbers as numbers;
ghost use Rattle.pb_protocol_packer.specs.View.{term_of, texts_of};
ghost use Rattle.pb_protocol_packer.specs.Members.{kind_said};
ghost use Rattle.pb_protocol_packer.specs.Written.{small_in, written_in};

use crate::builder::Builder;
use crate::digit::lowered;
use crate::enumerators::is_one_of;
use crate::member::{Kind, Member};
use crate::place_number::place_number;
use crate::seen::{Written, as_written, is_enumerator, is_truth};
use pb_base::both;
use pb_text_tree::{Comparison, Connective, Term, copy_term};
use std::alloc::AllocError;

/// The numbers below are small.
const SMALL: u64 = 1 << 32;

/// The number of a truth value.
fn truth_number(builder: Builder, term: Term) -> Result<Term, AllocError>
    ensures { IfOk result (λ t. term_of t
        ≡ numbers.to_number numbers.Kind.Boolean (pos 0) (term_of term)) }
{
    match as_written(&term) {
        Written::Truth(value) => {
            drop(term);
            Ok(builder.number(value as u64))
        }
        _ => builder.either(term, builder.number(1), builder.number(0)),
    }
}

/// The number that a term is, where it is a small one.
fn small_number(term: &Term) -> Option<u32>
    ensures { result ≡ small_in (written_in (term_of term.now)) }
{
    match as_written(term) {
        Written::Number(value) => {
            if value < SMALL {
                return Some(value as u32);
            }
            None
        }
        _ => None,
    }
}

/// The number of a whole number.
fn whole_number(builder: Builder, term: Term, low: i32) -> Result<Term, AllocError>
    ensures { IfOk result (λ t. term_of t
        ≡ numbers.to_number numbers.Kind.Whole low (term_of term)) }
{
    match small_number(&term) {
        Some(value) => {
            drop(term);
            builder.whole(i64::from(value) - i64::from(low))
        }
        None => lowered(builder, term, low),
    }
}

/// The number of a value that a variable gets.
pub(crate) fn to_number(builder: Builder, member: &Member, term: Term) -> Result<Term, AllocError>
    ensures { IfOk result (λ t. term_of t
        ≡ numbers.to_number (kind_said member.now.kind) member.now.low (term_of term)) }
{
    match &member.kind {
        Kind::Boolean => truth_number(builder, term),
        Kind::Enumeration(enumerators) => {
            let number = place_number(builder, enumerators, &term);
            drop(term);
            number
        }
        Kind::Whole => whole_number(builder, term, member.low),
    }
}

/// Whether a number is seen to be one of so many from a lowest on.
fn is_small_within(term: &Term, low: i32, size: u32) -> bool
    ensures { result ≡ numbers.is_surely_within numbers.Kind.Whole low size (term_of term.now) }
{
    match as_written(term) {
        Written::Number(value) => {
            let value = i128::from(value);
            i128::from(low) <= value && value < i128::from(low) + i128::from(size)
        }
        _ => false,
    }
}

/// Whether a term is seen to have a value of a variable.
pub(crate) fn is_surely_within(member: &Member, term: &Term) -> bool
    ensures { result ≡ numbers.is_surely_within (kind_said member.now.kind) member.now.low
        member.now.size (term_of term.now) }
{
    match &member.kind {
        Kind::Boolean => is_truth(term),
        Kind::Enumeration(enumerators) => is_enumerator(enumerators, term),
        Kind::Whole => is_small_within(term, member.low, member.size),
    }
}

/// Whether a term is the truth value.
fn is_equal(builder: Builder, term: &Term, value: bool) -> Result<Term, AllocError>
    ensures { IfOk result (λ t. term_of t ≡ syntax.Term.Binary syntax.Operator.Equal
        (term_of term.now) (syntax.Term.Truth value)) }
{
    let left = copy_term(builder.alloc, term)?;
    builder.compared(Comparison::Equal, left, builder.truth(value))
}

/// Whether a term is a truth value.
fn truth_test(builder: Builder, term: &Term) -> Result<Term, AllocError>
    ensures { IfOk result (λ t. term_of t
        ≡ numbers.test_of numbers.Kind.Boolean (pos 0) 2 (term_of term.now)) }
{
    let is_false = is_equal(builder, term, false)?;
    let (is_false, is_true) = both(is_false, is_equal(builder, term, true))?;
    builder.connected(Connective::Or, is_false, is_true)
}

/// Whether a term isn't below a number.
fn least_test(builder: Builder, term: &Term, least: i64) -> Result<Term, AllocError>
    ensures { IfOk result (λ t. term_of t ≡ syntax.Term.Binary syntax.Operator.LessEqual
        (numbers.number least) (term_of term.now)) }
{
    let least = builder.whole(least)?;
    let (least, right) = both(least, copy_term(builder.alloc, term))?;
    builder.compared(Comparison::LessEqual, least, right)
}

/// Whether a term is below a number.
fn end_test(builder: Builder, term: &Term, end: i64) -> Result<Term, AllocError>
    ensures { IfOk result (λ t. term_of t ≡ syntax.Term.Binary syntax.Operator.Less
        (term_of term.now) (numbers.number end)) }
{
    let left = copy_term(builder.alloc, term)?;
    let (left, end) = both(left, builder.whole(end))?;
    builder.compared(Comparison::Less, left, end)
}

/// Whether a term is one of so many numbers from a lowest on.
fn whole_test(builder: Builder, term: &Term, low: i32, size: u32) -> Result<Term, AllocError>
    ensures { IfOk result (λ t. term_of t
        ≡ numbers.test_of numbers.Kind.Whole low size (term_of term.now)) }
{
    let from_least = least_test(builder, term, i64::from(low))?;
    let before_end = end_test(builder, term, i64::from(low) + i64::from(size));
    let (from_least, before_end) = both(from_least, before_end)?;
    builder.connected(Connective::And, from_least, before_end)
}

/// The test whether a term has a value of a variable.
pub(crate) fn test_of(builder: Builder, member: &Member, term: &Term) -> Result<Term, AllocError>
    ensures { IfOk result (λ t. term_of t ≡ numbers.test_of (kind_said member.now.kind)
        member.now.low member.now.size (term_of term.now)) }
{
    match &member.kind {
        Kind::Boolean => truth_test(builder, term),
        Kind::Enumeration(enumerators) => is_one_of(builder, enumerators, term),
        Kind::Whole => whole_test(builder, term, member.low, member.size),
    }
}
