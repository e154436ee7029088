//! Connectives of folded formulas.

ghost use Rattle.std.specs.Prelude.{◌≡◌, IfOk, if◌then◌else◌, [], ◌++◌, map, flat_map};
ghost use Rattle.pb_text_meaning.specs.Syntax as data_syntax;
ghost use Rattle.pb_model_meaning.specs.Syntax as syntax;
ghost use Rattle.pb_model_translation.specs.Positive as positive;
ghost use Rattle.pb_protocol_folding.specs.FoldedModels.{folded_and_formula, folded_implies_formula};
ghost use Rattle.pb_protocol_folding.specs.FoldedModels.{folded_joined_formula, folded_not_formula};
ghost use Rattle.pb_protocol_folding.specs.FoldedModels.{folded_or_formula};
ghost use Rattle.pb_protocol_folding.specs.FoldedModels as models;
ghost use Rattle.pb_protocol_folding.specs.Kept.{folded_connective_formula, kept_formula};
ghost use Rattle.pb_protocol_folding.specs.declared.kept.Kept.TheVariants as kinds;
ghost use Rattle.pb_protocol_folding.specs.Places.{AreAmong, places_of};
ghost use Rattle.pb_protocol_folding.specs.View.{formula_of};

use crate::chain::chained_formulas;
use crate::connective::{joining, neutral};
use crate::kept::Kept;
use crate::truth::truth_value;
use pb_model_tree::Formula;
use pb_text_tree::{Connective, Place, Quantifier, Term};
use std::alloc::{AllocError, Global};

/// The truth value that a formula says as data, if it is one.
#[cycle(decisions)]
fn decided(formula: &Formula) -> Option<bool>
    ensures { result ≡ models.decided (formula_of formula.now) }
{
    match formula {
        Formula::Data { term, .. } => truth_value(term),
        Formula::Chain { first, links, .. } => {
            if links.is_empty() {
                return decided(first);
            }
            None
        }
        _ => None,
    }
}

/// Whether a formula is `true` or `false`.
#[cycle(constants)]
fn is_constant(formula: &Formula) -> bool
    ensures { result ≡ positive.is_constant (formula_of formula.now) }
{
    match formula {
        Formula::Constant { .. } => true,
        Formula::Chain { first, links, .. } => {
            if links.is_empty() {
                return is_constant(first);
            }
            false
        }
        _ => false,
    }
}

/// One operand alone, but both where it is `true` or `false`.
fn unless_constant(operand: &Formula, kept: Kept) -> Kept
    ensures { result
        ≡ (if positive.is_constant (formula_of operand.now) then kinds.Both else kept) }
{
    if is_constant(operand) {
        Kept::Both
    } else {
        kept
    }
}

/// What is kept of two operands.
fn choice(connective: Connective, left: &Formula, right: &Formula) -> Kept
    ensures { kept_formula connective result (formula_of left.now) (formula_of right.now)
        ≡ folded_connective_formula connective (formula_of left.now) (formula_of right.now) }
{
    match connective {
        Connective::And => match decided(left) {
            Some(true) => unless_constant(right, Kept::Right),
            Some(false) => Kept::Left,
            None => match decided(right) {
                Some(true) => unless_constant(left, Kept::Left),
                Some(false) => Kept::Right,
                None => Kept::Both,
            },
        },
        Connective::Or => match decided(left) {
            Some(true) => Kept::Left,
            Some(false) => unless_constant(right, Kept::Right),
            None => match decided(right) {
                Some(true) => Kept::Right,
                Some(false) => unless_constant(left, Kept::Left),
                None => Kept::Both,
            },
        },
        Connective::Implies => match decided(left) {
            Some(true) => unless_constant(right, Kept::Right),
            Some(false) => Kept::Truth(true),
            None => match decided(right) {
                Some(true) => Kept::Right,
                Some(false) => Kept::NotLeft,
                None => Kept::Both,
            },
        },
    }
}

/// A truth value as data.
fn data_truth(place: Place, value: bool) -> Formula
    ensures formula { formula_of result ≡ syntax.Formula.Data (data_syntax.Term.Truth value) }
    ensures places { places_of result ≡ [] }
{
    let term = Term::Constant { place, value };
    Formula::Data { place, term }
}

/// A connective of two folded formulas.
fn connected_formula(
    alloc: Global,
    connective: Connective,
    place: Place,
    left: Formula,
    right: Formula,
) -> Result<Formula, AllocError>
    ensures formula { IfOk result (λ f. formula_of f
        ≡ folded_connective_formula connective (formula_of left) (formula_of right)) }
    ensures places { IfOk result (λ f. AreAmong (places_of f) (places_of left ++ places_of right)) }
{
    match choice(connective, &left, &right) {
        Kept::Both => chained_formulas(alloc, connective, place, left, right),
        Kept::Left => {
            drop(right);
            Ok(left)
        }
        Kept::Right => {
            drop(left);
            Ok(right)
        }
        Kept::NotLeft => {
            drop(right);
            let operand = Box::new(alloc, left)?;
            Ok(Formula::Negation { place, operand })
        }
        Kept::Truth(value) => {
            drop(left);
            drop(right);
            Ok(data_truth(place, value))
        }
    }
}

/// `left && right` of folded formulas. The place is that of `&&`.
///
/// # Errors
/// Memory was refused.
pub fn and_formula(
    alloc: Global,
    place: Place,
    left: Formula,
    right: Formula,
) -> Result<Formula, AllocError>
    ensures formula { IfOk result
        (λ f. formula_of f ≡ folded_and_formula (formula_of left) (formula_of right)) }
    ensures places { IfOk result (λ f. AreAmong (places_of f) (places_of left ++ places_of right)) }
{
    connected_formula(alloc, Connective::And, place, left, right)
}

/// `left || right` of folded formulas. The place is that of `||`.
///
/// # Errors
/// Memory was refused.
pub fn or_formula(
    alloc: Global,
    place: Place,
    left: Formula,
    right: Formula,
) -> Result<Formula, AllocError>
    ensures formula { IfOk result
        (λ f. formula_of f ≡ folded_or_formula (formula_of left) (formula_of right)) }
    ensures places { IfOk result (λ f. AreAmong (places_of f) (places_of left ++ places_of right)) }
{
    connected_formula(alloc, Connective::Or, place, left, right)
}

/// `left => right` of folded formulas. The place is that of `=>`.
///
/// # Errors
/// Memory was refused.
pub fn implies_formula(
    alloc: Global,
    place: Place,
    left: Formula,
    right: Formula,
) -> Result<Formula, AllocError>
    ensures formula { IfOk result
        (λ f. formula_of f ≡ folded_implies_formula (formula_of left) (formula_of right)) }
    ensures places { IfOk result (λ f. AreAmong (places_of f) (places_of left ++ places_of right)) }
{
    connected_formula(alloc, Connective::Implies, place, left, right)
}

/// `!operand` of a folded formula. The place is that of `!`.
///
/// # Errors
/// Memory was refused.
pub fn not_formula(alloc: Global, place: Place, operand: Formula) -> Result<Formula, AllocError>
    ensures formula { IfOk result
        (λ f. formula_of f ≡ folded_not_formula (formula_of operand)) }
    ensures places { IfOk result (λ f. AreAmong (places_of f) (places_of operand)) }
{
    match decided(&operand) {
        Some(value) => {
            drop(operand);
            Ok(data_truth(place, !value))
        }
        None => {
            let operand = Box::new(alloc, operand)?;
            Ok(Formula::Negation { place, operand })
        }
    }
}

/// A quantifier over formulas written out: the conjunction of all folded operands, or their
/// disjunction. The place is that of the quantifier.
///
/// # Errors
/// Memory was refused.
pub fn joined_formula(
    alloc: Global,
    quantifier: Quantifier,
    place: Place,
    mut operands: Vec<Formula>,
) -> Result<Formula, AllocError>
    ensures formula { IfOk result (λ f. formula_of f
        ≡ folded_joined_formula quantifier (map formula_of operands.items)) }
    ensures places { IfOk result
        (λ f. AreAmong (places_of f) (flat_map places_of operands.items)) }
{
    let connective = joining(quantifier);
    let mut joined = data_truth(place, neutral(quantifier));
    while let Some(operand) = operands.pop() {
        joined = connected_formula(alloc, connective, place, operand, joined)?;
    }
    Ok(joined)
}
