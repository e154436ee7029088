//! Operands of one connective, and what they are joined to.

ghost use Rattle.std.specs.Prelude.{◌≡◌, true, IfOk};
ghost use Rattle.pb_text_meaning.specs.Syntax as syntax;
ghost use Rattle.pb_protocol_folding.specs.Kept.{folded_connective, joining, neutral, truth_counts};
ghost use Rattle.pb_protocol_folding.specs.View.{term_of};
ghost use Rattle.pb_protocol_unfolder_terms.specs.Chains.{deciding, outcome};
ghost use Rattle.pb_protocol_unfolder_terms.specs.Operands.{AreOperands, behind};
ghost use Rattle.pb_protocol_unfolder_terms.specs.Chains.{operands_of};
ghost use Rattle.pb_protocol_unfolder_terms.specs.Unfolding.{IsUnfolded};

use crate::form::Form;
use crate::unfolded::Unfolded;
use pb_protocol_folding::{and_term, implies_term, or_term};
use pb_text_tree::{Connective, Place, Quantifier, Term, TermLink};
use std::alloc::{AllocError, Global};

/// Operands of one connective that are unfolded and folded: each but the last with the place of the
/// connective behind it.
#[derive(Drop)]
pub(crate) struct Operands {
    pub before: Vec<TermLink>,
    pub last: Term,
    /// How many more operators there may be behind them.
    pub room: u32,
}

/// A connective, and whether the truth alone of what it gives counts.
#[derive(Clone, Copy)]
pub(crate) struct Connected {
    pub connective: Connective,
    pub truth: bool,
}

/// The connective between what is said of all values, or of some.
pub(crate) fn joining(quantifier: Quantifier) -> Connective
    ensures { result ≡ joining quantifier }
{
    match quantifier {
        Quantifier::Forall => Connective::And,
        Quantifier::Exists => Connective::Or,
    }
}

/// What is said of no value.
pub(crate) fn neutral(quantifier: Quantifier) -> bool
    ensures { result ≡ neutral quantifier }
{
    match quantifier {
        Quantifier::Forall => true,
        Quantifier::Exists => false,
    }
}

/// What a quantifier over no values says.
pub(crate) fn said_of_none(quantifier: Quantifier, place: Place, room: u32) -> Unfolded
    ensures { (spec : syntax.Spec) (truth : _) →
        IsUnfolded spec truth room (syntax.Term.Truth (neutral quantifier)) result }
{
    let value = neutral(quantifier);
    Unfolded {
        term: Term::Constant { place, value },
        form: Form::Truth(value),
        room,
    }
}

/// Whether an operand decides what a connective gives that has it on the left.
pub(crate) fn decides(connective: Connective, left: &Term) -> bool
    ensures { result ≡ true → term_of left.now ≡ syntax.Term.Truth (deciding connective) }
{
    match (connective, left) {
        (Connective::Or, Term::Constant { value, .. }) => *value,
        (_, Term::Constant { value, .. }) => !*value,
        _ => false,
    }
}

/// What a connective gives whose left operand decides.
pub(crate) fn decided(connective: Connective, place: Place) -> Term
    ensures { term_of result ≡ syntax.Term.Truth (outcome connective) }
{
    Term::Constant {
        place,
        value: connective != Connective::And,
    }
}

/// Whether the truth alone of what stands behind these operands counts.
pub(crate) fn truth_counts(truth: bool, before: &[TermLink]) -> bool
    ensures { result ≡ truth_counts truth (operands_of before.now) }
{
    if before.is_empty() { truth } else { true }
}

/// Two folded terms with a connective between them.
pub(crate) fn connected_term(
    alloc: Global,
    connected: Connected,
    place: Place,
    left: Term,
    right: Term,
) -> Result<Term, AllocError>
    ensures { IfOk result (λ t. term_of t
        ≡ folded_connective connected.connective connected.truth (term_of left) (term_of right)) }
{
    let truth = connected.truth;
    match connected.connective {
        Connective::And => and_term(alloc, truth, place, left, right),
        Connective::Or => or_term(alloc, truth, place, left, right),
        Connective::Implies => implies_term(alloc, truth, place, left, right),
    }
}

/// A folded term behind folded operands, from the last of them on.
fn joined_term(
    alloc: Global,
    connected: Connected,
    mut before: Vec<TermLink>,
    last: Term,
) -> Result<Term, AllocError>
    ensures { IfOk result (λ t. term_of t
        ≡ behind connected.connective connected.truth (operands_of before.items) (term_of last)) }
{
    let mut joined = last;
    while let Some(link) = before.pop() {
        let inner = Connected {
            connective: connected.connective,
            truth: truth_counts(connected.truth, &before),
        };
        joined = connected_term(alloc, inner, link.place, link.operand, joined)?;
    }
    Ok(joined)
}

/// What operands are joined to.
pub(crate) fn joined_operands(
    alloc: Global,
    connected: Connected,
    operands: Operands,
) -> Result<Unfolded, AllocError>
    ensures { (spec : syntax.Spec) (n : _) (whole : syntax.Term) →
        AreOperands spec connected.connective connected.truth n whole operands
        → IfOk result (IsUnfolded spec connected.truth n whole) }
{
    let term = joined_term(alloc, connected, operands.before, operands.last)?;
    Ok(Unfolded {
        term,
        form: Form::Other,
        room: operands.room,
    })
}
