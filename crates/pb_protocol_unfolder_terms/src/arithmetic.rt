//! Puts operators of arithmetic between unfolded operands.

ghost use Rattle.std.specs.Prelude.{◌≡◌, suc, false, IfOk};
ghost use Rattle.pb_text_tree.specs.declared.term.Term as declared_term;
ghost use Rattle.pb_text_meaning.specs.Erase.{of_arithmetic};
ghost use Rattle.pb_text_meaning.specs.Syntax as syntax;
ghost use Rattle.pb_protocol_folding.specs.Folding.{folded_operation};
ghost use Rattle.pb_protocol_folding.specs.View.{spec_of, term_of};
ghost use Rattle.pb_protocol_unfolder_terms.specs.Unfolding.{IsUnfolded};

use crate::form::Form;
use crate::unfolded::Unfolded;
use pb_protocol_folding::{Folding, arithmetic_term};
use pb_text_tree::{Arithmetic, ArithmeticLink, Place, Term};
use std::alloc::AllocError;

/// A folded chain with one more operand behind it.
fn lengthened(
    folding: &Folding<'_>,
    first: Box<Term>,
    mut links: Vec<ArithmeticLink>,
    link: ArithmeticLink,
) -> Result<Term, AllocError>
    ensures { IfOk result (λ t. term_of t ≡ folded_operation (spec_of folding.now.sorts.now)
        (of_arithmetic link.operator) (term_of (declared_term.Arithmetic first links))
        (term_of link.operand)) }
{
    if links.is_empty() {
        let left = Term::Arithmetic { first, links };
        return arithmetic_term(folding, link.place, link.operator, left, link.operand);
    }
    let Ok(()) = links.push(link) else {
        drop((first, links));
        return Err(AllocError);
    };
    Ok(Term::Arithmetic { first, links })
}

/// An operator of two folded terms, which a chain on the left takes over.
fn operated(folding: &Folding<'_>, left: Term, link: ArithmeticLink) -> Result<Term, AllocError>
    ensures { IfOk result (λ t. term_of t ≡ folded_operation (spec_of folding.now.sorts.now)
        (of_arithmetic link.operator) (term_of left) (term_of link.operand)) }
{
    match left {
        Term::Arithmetic { first, links } => lengthened(folding, first, links, link),
        left => arithmetic_term(folding, link.place, link.operator, left, link.operand),
    }
}

/// An operator of two unfolded terms, the right one behind the left one and the operator.
pub(crate) fn calculation(
    folding: &Folding<'_>,
    place: Place,
    operator: Arithmetic,
    left: Unfolded,
    right: Unfolded,
) -> Result<Unfolded, AllocError>
    ensures { (x y : _) (n room : _) (truth : _) → left.room ≡ suc room
        → IsUnfolded (spec_of folding.now.sorts.now) false n x left
        → IsUnfolded (spec_of folding.now.sorts.now) false room y right
        → IfOk result (IsUnfolded (spec_of folding.now.sorts.now) truth n
        (syntax.Term.Binary (of_arithmetic operator) x y)) }
{
    let room = right.room;
    let operand = right.term;
    let link = ArithmeticLink {
        place,
        operator,
        operand,
    };
    let term = operated(folding, left.term, link)?;
    Ok(Unfolded {
        term,
        form: Form::Other,
        room,
    })
}
