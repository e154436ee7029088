//! Comparisons and operators of folded terms.

ghost use Rattle.std.specs.Prelude.{◌≡◌, IfOk, pos, true, false, box_value};
ghost use Rattle.pb_text_tree.specs.declared.operator.Arithmetic.TheVariants as arithmetic;
ghost use Rattle.pb_text_meaning.specs.Syntax as syntax;
ghost use Rattle.pb_text_meaning.specs.Erase.{of_arithmetic, of_comparison};
ghost use Rattle.pb_text_meaning.specs.Value as meaning;
ghost use Rattle.pb_protocol_folding.specs.Folding.{folded_negative, folded_operation};
ghost use Rattle.pb_protocol_folding.specs.Folding.{may_compute};
ghost use Rattle.pb_protocol_folding.specs.View.{spec_of, term_of};

use crate::links::{alone, first_and_links};
use crate::value::{number_term, written_value};
use pb_text_tree::{Arithmetic, ArithmeticLink, Comparison, Place, SortDeclaration, Term};
use std::alloc::{AllocError, Global};

/// What terms are folded with: where memory comes from, and the sorts whose enumerators are values.
#[derive(Clone, Copy)]
pub struct Folding<'a> {
    pub alloc: Global,
    pub sorts: &'a [SortDeclaration],
}

/// Whether two values compare so.
fn compares(comparison: Comparison, left: i32, right: i32) -> bool
    ensures { result ≡ meaning.is_true (meaning.binary (of_comparison comparison) left right) }
{
    match comparison {
        Comparison::Equal => left == right,
        Comparison::NotEqual => left != right,
        Comparison::Less => left < right,
        Comparison::LessEqual => left <= right,
        Comparison::Greater => left > right,
        Comparison::GreaterEqual => left >= right,
    }
}

/// The quotient, rounded down; 0 by a divisor below 1.
fn quotient(left: i64, right: i64) -> i64
    ensures { result ≡ meaning.binary (of_arithmetic arithmetic.Div) left right }
{
    if right < 1 { 0 } else { left.div_euclid(right) }
}

/// The remainder, which isn't below 0; 0 by a divisor below 1.
fn remainder(left: i64, right: i64) -> i64
    ensures { result ≡ meaning.binary (of_arithmetic arithmetic.Mod) left right }
{
    if right < 1 { 0 } else { left.rem_euclid(right) }
}

/// What an operator of two whole numbers gives.
fn calculate(operator: Arithmetic, left: i32, right: i32) -> i64
    ensures { result ≡ meaning.binary (of_arithmetic operator) left right }
{
    let left = i64::from(left);
    let right = i64::from(right);
    match operator {
        Arithmetic::Plus => left + right,
        Arithmetic::Minus => left - right,
        Arithmetic::Times => left * right,
        Arithmetic::Div => quotient(left, right),
        Arithmetic::Mod => remainder(left, right),
    }
}

/// Whether an operator of two whole numbers is computed: not a division by less than 1.
fn may_compute(operator: Arithmetic, right: i32) -> bool
    ensures { result ≡ may_compute (of_arithmetic operator) right }
{
    match operator {
        Arithmetic::Div | Arithmetic::Mod => right >= 1,
        Arithmetic::Plus | Arithmetic::Minus | Arithmetic::Times => true,
    }
}

/// Two terms, each in memory of its own.
fn boxed<T: Drop>(alloc: Global, left: T, right: T) -> Result<(Box<T>, Box<T>), AllocError>
    ensures { IfOk result (λ boxes. (box_value boxes.0 ≡ left) × (box_value boxes.1 ≡ right)) }
{
    let left = Box::new(alloc, left)?;
    let right = Box::new(alloc, right)?;
    Ok((left, right))
}

/// A comparison of two folded terms. The place is that of the comparison's sign.
///
/// # Errors
/// Memory was refused.
pub fn compared_term(
    folding: &Folding<'_>,
    place: Place,
    comparison: Comparison,
    left: Term,
    right: Term,
) -> Result<Term, AllocError>
    ensures { IfOk result (λ t. term_of t ≡ folded_operation (spec_of folding.now.sorts.now)
        (of_comparison comparison) (term_of left) (term_of right)) }
{
    if let Some(low) = written_value(folding.sorts, &left) {
        if let Some(high) = written_value(folding.sorts, &right) {
            drop(left);
            drop(right);
            let value = compares(comparison, low, high);
            return Ok(Term::Constant { place, value });
        }
    }
    let (left, right) = boxed(folding.alloc, left, right)?;
    Ok(Term::Comparison {
        place,
        comparison,
        left,
        right,
    })
}

/// Two terms with an operator of arithmetic between them.
fn operated_term(
    alloc: Global,
    place: Place,
    operator: Arithmetic,
    left: Term,
    right: Term,
) -> Result<Term, AllocError>
    ensures { IfOk result (λ t. term_of t
        ≡ syntax.Term.Binary (of_arithmetic operator) (term_of left) (term_of right)) }
{
    let link = ArithmeticLink {
        place,
        operator,
        operand: right,
    };
    let (first, links) = first_and_links(alloc, left, alone(alloc, link))?;
    Ok(Term::Arithmetic { first, links })
}

/// An operator of two folded terms, which stays where it divides by less than 1. The place is that
/// of the operator.
///
/// # Errors
/// Memory was refused.
pub fn arithmetic_term(
    folding: &Folding<'_>,
    place: Place,
    operator: Arithmetic,
    left: Term,
    right: Term,
) -> Result<Term, AllocError>
    ensures { IfOk result (λ t. term_of t ≡ folded_operation (spec_of folding.now.sorts.now)
        (of_arithmetic operator) (term_of left) (term_of right)) }
{
    if let Some(low) = written_value(folding.sorts, &left) {
        if let Some(high) = written_value(folding.sorts, &right) {
            if may_compute(operator, high) {
                drop(left);
                drop(right);
                let value = calculate(operator, low, high);
                return number_term(folding.alloc, place, value);
            }
        }
    }
    operated_term(folding.alloc, place, operator, left, right)
}

/// `-operand` of a folded term. The place is that of `-`.
///
/// # Errors
/// Memory was refused.
pub fn negative_term(folding: &Folding<'_>, place: Place, operand: Term) -> Result<Term, AllocError>
    ensures { IfOk result (λ t. term_of t
        ≡ folded_negative (spec_of folding.now.sorts.now) (term_of operand)) }
{
    match written_value(folding.sorts, &operand) {
        Some(value) => {
            drop(operand);
            number_term(folding.alloc, place, -i64::from(value))
        }
        None => {
            let operand = Box::new(folding.alloc, operand)?;
            Ok(Term::Negative { place, operand })
        }
    }
}
