//! Connectives of folded terms.

ghost use Rattle.std.specs.Prelude.{◌≡◌, IfOk, map};
ghost use Rattle.pb_text_meaning.specs.Syntax as syntax;
ghost use Rattle.pb_protocol_folding.specs.Folding.{folded_and, folded_implies, folded_joined, folded_not};
ghost use Rattle.pb_protocol_folding.specs.Folding.{folded_or};
ghost use Rattle.pb_protocol_folding.specs.Kept.{decided_term, folded_connective, kept_term};
ghost use Rattle.pb_protocol_folding.specs.Kept as kinds;
ghost use Rattle.pb_protocol_folding.specs.View.{term_of};

use crate::chain::chained_terms;
use crate::kept::Kept;
use crate::truth::{is_test, truth_value};
use pb_text_tree::{Connective, Place, Quantifier, Term};
use std::alloc::{AllocError, Global};

/// A connective, where it stands, and whether the truth alone of what it gives counts.
#[derive(Clone, Copy)]
struct Connected {
    connective: Connective,
    place: Place,
    truth: bool,
}

/// What is kept of two operands by the truth values that they are written as.
fn decided(connective: Connective, left: Option<bool>, right: Option<bool>) -> Kept
    ensures { (x y : syntax.Term) →
        kept_term connective result x y ≡ decided_term connective left right x y }
{
    match connective {
        Connective::And => match left {
            Some(true) => Kept::Right,
            Some(false) => Kept::Truth(false),
            None => match right {
                Some(true) => Kept::Left,
                Some(false) => Kept::Truth(false),
                None => Kept::Both,
            },
        },
        Connective::Or => match left {
            Some(true) => Kept::Truth(true),
            Some(false) => Kept::Right,
            None => match right {
                Some(true) => Kept::Truth(true),
                Some(false) => Kept::Left,
                None => Kept::Both,
            },
        },
        Connective::Implies => match left {
            Some(true) => Kept::Right,
            Some(false) => Kept::Truth(true),
            None => match right {
                Some(true) => Kept::Truth(true),
                Some(false) => Kept::NotLeft,
                None => Kept::Both,
            },
        },
    }
}

/// Whether what is kept has a truth value, whatever its names stand for.
fn has_truth(kept: Kept, left: &Term, right: &Term) -> bool
    ensures { result ≡ kinds.has_truth kept (term_of left.now) (term_of right.now) }
{
    match kept {
        Kept::Left => is_test(left),
        Kept::Right => is_test(right),
        Kept::Both | Kept::NotLeft | Kept::Truth(_) => true,
    }
}

/// What is kept of two operands.
fn choice(connected: Connected, left: &Term, right: &Term) -> Kept
    ensures { kept_term connected.connective result (term_of left.now) (term_of right.now)
        ≡ folded_connective connected.connective connected.truth (term_of left.now)
        (term_of right.now) }
{
    let kept = decided(connected.connective, truth_value(left), truth_value(right));
    if connected.truth || has_truth(kept, left, right) {
        kept
    } else {
        Kept::Both
    }
}

/// A connective of two folded terms.
fn connected_term(
    alloc: Global,
    connected: Connected,
    left: Term,
    right: Term,
) -> Result<Term, AllocError>
    ensures { IfOk result (λ t. term_of t ≡ folded_connective connected.connective
        connected.truth (term_of left) (term_of right)) }
{
    let place = connected.place;
    match choice(connected, &left, &right) {
        Kept::Both => chained_terms(alloc, connected.connective, place, left, right),
        Kept::Left => {
            drop(right);
            Ok(left)
        }
        Kept::Right => {
            drop(left);
            Ok(right)
        }
        Kept::NotLeft => {
            drop(right);
            let operand = Box::new(alloc, left)?;
            Ok(Term::Not { place, operand })
        }
        Kept::Truth(value) => {
            drop(left);
            drop(right);
            Ok(Term::Constant { place, value })
        }
    }
}

/// `left && right` of folded terms, where its truth alone counts or its value. The place is that of
/// `&&`.
///
/// # Errors
/// Memory was refused.
pub fn and_term(
    alloc: Global,
    truth: bool,
    place: Place,
    left: Term,
    right: Term,
) -> Result<Term, AllocError>
    ensures { IfOk result
        (λ t. term_of t ≡ folded_and truth (term_of left) (term_of right)) }
{
    let connective = Connective::And;
    let connected = Connected {
        connective,
        place,
        truth,
    };
    connected_term(alloc, connected, left, right)
}

/// `left || right` of folded terms, where its truth alone counts or its value. The place is that of
/// `||`.
///
/// # Errors
/// Memory was refused.
pub fn or_term(
    alloc: Global,
    truth: bool,
    place: Place,
    left: Term,
    right: Term,
) -> Result<Term, AllocError>
    ensures { IfOk result
        (λ t. term_of t ≡ folded_or truth (term_of left) (term_of right)) }
{
    let connective = Connective::Or;
    let connected = Connected {
        connective,
        place,
        truth,
    };
    connected_term(alloc, connected, left, right)
}

/// `left => right` of folded terms, where its truth alone counts or its value. The place is that of
/// `=>`.
///
/// # Errors
/// Memory was refused.
pub fn implies_term(
    alloc: Global,
    truth: bool,
    place: Place,
    left: Term,
    right: Term,
) -> Result<Term, AllocError>
    ensures { IfOk result
        (λ t. term_of t ≡ folded_implies truth (term_of left) (term_of right)) }
{
    let connective = Connective::Implies;
    let connected = Connected {
        connective,
        place,
        truth,
    };
    connected_term(alloc, connected, left, right)
}

/// `!operand` of a folded term. The place is that of `!`.
///
/// # Errors
/// Memory was refused.
pub fn not_term(alloc: Global, place: Place, operand: Term) -> Result<Term, AllocError>
    ensures { IfOk result (λ t. term_of t ≡ folded_not (term_of operand)) }
{
    match truth_value(&operand) {
        Some(value) => {
            drop(operand);
            Ok(Term::Constant {
                place,
                value: !value,
            })
        }
        None => {
            let operand = Box::new(alloc, operand)?;
            Ok(Term::Not { place, operand })
        }
    }
}

/// The connective between what is said of all values, or of some.
pub(crate) fn joining(quantifier: Quantifier) -> Connective
    ensures { result ≡ kinds.joining quantifier }
{
    match quantifier {
        Quantifier::Forall => Connective::And,
        Quantifier::Exists => Connective::Or,
    }
}

/// What is said of no value.
pub(crate) fn neutral(quantifier: Quantifier) -> bool
    ensures { result ≡ kinds.neutral quantifier }
{
    match quantifier {
        Quantifier::Forall => true,
        Quantifier::Exists => false,
    }
}

/// Whether the truth alone of what is joined behind these operands counts.
fn truth_counts(truth: bool, before: &[Term]) -> bool
    ensures { result ≡ kinds.truth_counts truth before.now }
{
    if before.is_empty() { truth } else { true }
}

/// A quantifier written out: the conjunction of all folded operands, or their disjunction, where
/// its truth alone counts or its value. The place is that of the quantifier.
///
/// # Errors
/// Memory was refused.
pub fn joined_term(
    alloc: Global,
    truth: bool,
    quantifier: Quantifier,
    place: Place,
    mut operands: Vec<Term>,
) -> Result<Term, AllocError>
    ensures { IfOk result
        (λ t. term_of t ≡ folded_joined quantifier truth (map term_of operands.items)) }
{
    let connective = joining(quantifier);
    let value = neutral(quantifier);
    let mut joined = Term::Constant { place, value };
    while let Some(operand) = operands.pop() {
        let connected = Connected {
            connective,
            place,
            truth: truth_counts(truth, &operands),
        };
        joined = connected_term(alloc, connected, operand, joined)?;
    }
    Ok(joined)
}
