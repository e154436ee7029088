//! Comparisons of a packed variable with an enumerator: their numbers are compared.

ghost use Rattle.std.specs.Prelude.{◌≡◌, IfOk, Some};
ghost use Rattle.pb_text_meaning.specs.Syntax as syntax;
ghost use Rattle.std.specs.Option.{option_map};
ghost use Rattle.pb_text_meaning.specs.Erase.{of_comparison};
ghost use Rattle.pb_protocol_packing.specs.Said as digits;
ghost use Rattle.pb_protocol_packer.specs.View.{term_of};
ghost use Rattle.pb_protocol_packer.specs.Members.{kind_said};
ghost use Rattle.pb_protocol_packer.specs.Scopes.{digit_by, digit_of, scope_in};

use crate::builder::Builder;
use crate::enumerators::place_among;
use crate::member::Kind;
use crate::scope::{Digit, Hiding, Packing, digit_for};
use crate::seen::{Written, as_written};
use pb_text_tree::{Comparison, Term, copy_term};
use std::alloc::AllocError;

/// The digit that stands for a term, where that is a name.
pub(crate) fn digit_in<'a>(
    packing: &Packing<'a>,
    hiding: &Hiding<'_>,
    term: &Term,
) -> Option<&'a Digit<'a>>
    ensures { option_map digit_by result
        ≡ digits.digit_in (scope_in packing.now hiding.now) (term_of term.now) }
{
    match as_written(term) {
        Written::Name(name) => digit_for(packing, hiding, &name.text),
        _ => None,
    }
}

/// The place of an enumerator with which a variable is compared.
fn place_in(kind: &Kind, term: &Term) -> Option<usize>
    ensures { result ≡ digits.compared_place syntax.Operator.Equal (kind_said kind.now)
        (term_of term.now) }
{
    let Kind::Enumeration(enumerators) = kind else {
        return None;
    };
    match as_written(term) {
        Written::Name(name) => place_among(enumerators, &name.text),
        _ => None,
    }
}

/// The place of an enumerator, where a comparison needs no more.
fn compared_place(comparison: Comparison, kind: &Kind, term: &Term) -> Option<usize>
    ensures { result ≡ digits.compared_place (of_comparison comparison) (kind_said kind.now)
        (term_of term.now) }
{
    match comparison {
        Comparison::Equal | Comparison::NotEqual => place_in(kind, term),
        _ => None,
    }
}

/// A digit that is compared with the number of a place.
fn compared_with(
    builder: Builder,
    comparison: Comparison,
    digit: &Digit<'_>,
    place: usize,
) -> Result<Term, AllocError>
    ensures { IfOk result (λ t. term_of t ≡ syntax.Term.Binary (of_comparison comparison)
        (digit_of digit.now).term (syntax.Term.Number place)) }
{
    let number = copy_term(builder.alloc, &digit.term)?;
    builder.compared(comparison, number, builder.number(place as u64))
}

/// Two terms that are compared, the first with the digit that stands for it.
fn compared_by(
    builder: Builder,
    comparison: Comparison,
    digit: &Digit<'_>,
    left: Term,
    right: Term,
) -> Result<Term, AllocError>
    ensures { IfOk result (λ t. term_of t ≡ digits.compared (of_comparison comparison)
        (Some (digit_of digit.now)) (term_of left) (term_of right)) }
{
    match compared_place(comparison, &digit.member.kind, &right) {
        None => builder.compared(comparison, left, right),
        Some(place) => {
            drop(left);
            drop(right);
            compared_with(builder, comparison, digit, place)
        }
    }
}

/// What a comparison says, where `left` and `right` say its operands.
pub(crate) fn compared(
    builder: Builder,
    comparison: Comparison,
    digit: Option<&Digit<'_>>,
    left: Term,
    right: Term,
) -> Result<Term, AllocError>
    ensures { IfOk result (λ t. term_of t ≡ digits.compared (of_comparison comparison)
        (option_map digit_by digit.entry) (term_of left) (term_of right)) }
{
    match digit {
        None => builder.compared(comparison, left, right),
        Some(digit) => compared_by(builder, comparison, digit, left, right),
    }
}
