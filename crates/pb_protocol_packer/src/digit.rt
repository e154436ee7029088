//! Values of variables from their numbers, as terms.

ghost use Rattle.std.specs.Prelude.{◌≡◌, IfOk};
ghost use Rattle.pb_protocol_packing.specs.Numbers as numbers;
ghost use Rattle.pb_protocol_packer.specs.View.{term_of};
ghost use Rattle.pb_protocol_packer.specs.Members.{kind_said};

use crate::builder::Builder;
use crate::enumerators::enumerator_at;
use crate::member::{Kind, Member};
use pb_base::both;
use pb_text_tree::{Arithmetic, Comparison, Term};
use std::alloc::AllocError;

/// A term and a number more, where that isn't 0.
fn raised(builder: Builder, term: Term, low: i32) -> Result<Term, AllocError>
    ensures { IfOk result (λ t. term_of t ≡ numbers.raised (term_of term) low) }
{
    if low == 0 {
        return Ok(term);
    }
    let (term, low) = both(term, builder.whole(i64::from(low)))?;
    builder.computed(Arithmetic::Plus, term, low)
}

/// A term and a number less, where that isn't 0.
pub(crate) fn lowered(builder: Builder, term: Term, low: i32) -> Result<Term, AllocError>
    ensures { IfOk result (λ t. term_of t ≡ numbers.lowered (term_of term) low) }
{
    if low == 0 {
        return Ok(term);
    }
    let (term, low) = both(term, builder.whole(i64::from(low)))?;
    builder.computed(Arithmetic::Minus, term, low)
}

/// The value of a variable from its number.
pub(crate) fn from_number(
    builder: Builder,
    member: &Member,
    number: Term,
) -> Result<Term, AllocError>
    ensures { IfOk result (λ t. term_of t
        ≡ numbers.from_number (kind_said member.now.kind) member.now.low (term_of number)) }
{
    match &member.kind {
        Kind::Boolean => builder.compared(Comparison::Equal, number, builder.number(1)),
        Kind::Enumeration(enumerators) => enumerator_at(builder, enumerators, &number),
        Kind::Whole => raised(builder, number, member.low),
    }
}
