//! Numbers as they are written.

ghost use Rattle.std.specs.Prelude.{◌≡◌, IfOk};
ghost use Rattle.pb_protocol_folding.specs.View.{term_of};
ghost use Rattle.pb_text_tree.specs.Form.{term_form};
ghost use Rattle.pb_protocol_constants.specs.Settled.{number_in, number_at};

use pb_protocol_folding::{truth_value, written_value};
use pb_text_tree::{Place, Term};
use std::alloc::{AllocError, Global};

/// The number of 32 bits that a folded term is written as, if it is one: no truth value.
pub(crate) fn number_in(term: &Term) -> Option<i32>
    ensures { result ≡ number_in (term_of term.now) }
{
    match truth_value(term) {
        Some(_) => None,
        None => written_value(&[], term),
    }
}

/// A number as a term that stands at a place.
pub(crate) fn number_at(alloc: Global, place: Place, value: i32) -> Result<Term, AllocError>
    ensures { IfOk result (λ t. term_form t ≡ number_at place value) }
{
    let magnitude = Term::Number {
        place,
        value: u64::from(value.unsigned_abs()),
    };
    if value >= 0 {
        return Ok(magnitude);
    }
    let operand = Box::new(alloc, magnitude)?;
    Ok(Term::Negative { place, operand })
}
