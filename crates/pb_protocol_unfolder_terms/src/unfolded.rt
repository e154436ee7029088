//! Unfolded terms, and what is put together of them.

ghost use Rattle.std.specs.Prelude.{◌≡◌, suc, true, false, IfOk};
ghost use Rattle.pb_text_meaning.specs.Erase.{of_comparison};
ghost use Rattle.pb_text_meaning.specs.Syntax as syntax;
ghost use Rattle.pb_protocol_folding.specs.View.{spec_of};
ghost use Rattle.pb_protocol_unfolder_terms.specs.Unfolding.{IsUnfolded, name_in};
ghost use Rattle.pb_protocol_unfolder_terms.specs.Unfolding as spec;

use crate::form::Form;
use pb_protocol_folding::{Folding, compared_term, negative_term, not_term};
use pb_text_tree::{Comparison, Place, Term};
use std::alloc::AllocError;

/// An unfolded term, folded.
#[derive(Drop)]
pub struct Unfolded {
    pub term: Term,
    /// How it is written before it is folded.
    pub(crate) form: Form,
    /// How many more operators there may be behind it.
    pub(crate) room: u32,
}

/// The name that a term is, and nothing of another term.
pub(crate) fn name_of(term: &Term) -> &str
    ensures { result.now ≡ name_in term.now }
{
    match term {
        Term::Name(name) => name.text.as_str(),
        _ => "",
    }
}

/// `!` before an unfolded term.
pub(crate) fn negation(
    folding: &Folding<'_>,
    place: Place,
    operand: Unfolded,
) -> Result<Unfolded, AllocError>
    ensures { (x : _) (n : _) (truth : _) →
        IsUnfolded (spec_of folding.now.sorts.now) true n x operand
        → IfOk result (IsUnfolded (spec_of folding.now.sorts.now) truth (suc n)
        (syntax.Term.Not x)) }
{
    let term = not_term(folding.alloc, place, operand.term)?;
    Ok(Unfolded {
        term,
        form: Form::Other,
        room: operand.room,
    })
}

/// How `-` before a term of a form is written.
fn negative_form(form: Form) -> Form
    ensures { result ≡ spec.negative_form form }
{
    match form {
        Form::Number(value) => Form::Negative(value),
        _ => Form::Other,
    }
}

/// `-` before an unfolded term.
pub(crate) fn negative(
    folding: &Folding<'_>,
    place: Place,
    operand: Unfolded,
) -> Result<Unfolded, AllocError>
    ensures { (x : _) (n : _) (truth : _) →
        IsUnfolded (spec_of folding.now.sorts.now) false n x operand
        → IfOk result (IsUnfolded (spec_of folding.now.sorts.now) truth (suc n)
        (syntax.Term.Negative x)) }
{
    let form = negative_form(operand.form);
    let room = operand.room;
    let term = negative_term(folding, place, operand.term)?;
    Ok(Unfolded { term, form, room })
}

/// A comparison of two unfolded terms, the right one behind the left one.
pub(crate) fn comparison(
    folding: &Folding<'_>,
    place: Place,
    comparison: Comparison,
    left: Unfolded,
    right: Unfolded,
) -> Result<Unfolded, AllocError>
    ensures { (x y : _) (n : _) (truth : _) →
        IsUnfolded (spec_of folding.now.sorts.now) false n x left
        → IsUnfolded (spec_of folding.now.sorts.now) false left.room y right
        → IfOk result (IsUnfolded (spec_of folding.now.sorts.now) truth (suc n)
        (syntax.Term.Binary (of_comparison comparison) x y)) }
{
    let term = compared_term(folding, place, comparison, left.term, right.term)?;
    Ok(Unfolded {
        term,
        form: Form::Other,
        room: right.room,
    })
}
