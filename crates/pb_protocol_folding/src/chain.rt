//! Two operands with a connective between them: a chain on the right takes one more operand in
//! front, so that no chain stands within a chain.

ghost use Rattle.std.specs.Prelude.{◌≡◌, IfOk, ◌++◌};
ghost use Rattle.pb_text_tree.specs.Form.{TermForm, chained, term_form};
ghost use Rattle.pb_text_tree.specs.Form as form;
ghost use Rattle.pb_text_meaning.specs.Syntax as syntax;
ghost use Rattle.pb_text_meaning.specs.Erase.{of_connective};
ghost use Rattle.pb_model_tree.specs.Form.{FormulaForm, formula_form};
ghost use Rattle.pb_model_meaning.specs.Erase.{joined};
ghost use Rattle.pb_protocol_folding.specs.Places.{places_of};
ghost use Rattle.pb_protocol_folding.specs.View.{formula_of, link_forms, term_of};

use crate::links::{alone, first_and_links, with_first};
use pb_model_tree::{Formula, Link};
use pb_text_tree::{Connective, Place, Term, TermLink};
use std::alloc::{AllocError, Global};

/// The links of a chain whose operands behind the first are those of a term.
fn term_links(
    alloc: Global,
    connective: Connective,
    place: Place,
    term: Term,
) -> Result<Vec<TermLink>, AllocError>
    ensures { IfOk result (λ links. (x : TermForm) →
        chained (TermForm.connected connective) x (form.term_links links.items)
        ≡ TermForm.connected connective place x (term_form term)) }
{
    match term {
        Term::Chain {
            connective: inner,
            first,
            links,
        } => {
            if inner == connective {
                let operand = Box::into_inner(first);
                return with_first(links, TermLink { place, operand });
            }
            let operand = Term::Chain {
                connective: inner,
                first,
                links,
            };
            alone(alloc, TermLink { place, operand })
        }
        operand => alone(alloc, TermLink { place, operand }),
    }
}

/// Two terms with a connective between them.
pub(crate) fn chained_terms(
    alloc: Global,
    connective: Connective,
    place: Place,
    left: Term,
    right: Term,
) -> Result<Term, AllocError>
    ensures { IfOk result (λ t. term_of t
        ≡ syntax.Term.Binary (of_connective connective) (term_of left) (term_of right)) }
{
    let links = term_links(alloc, connective, place, right);
    let (first, links) = first_and_links(alloc, left, links)?;
    Ok(Term::Chain {
        connective,
        first,
        links,
    })
}

/// The links of a chain whose operands behind the first are those of a formula.
fn formula_links(
    alloc: Global,
    connective: Connective,
    place: Place,
    formula: Formula,
) -> Result<Vec<Link>, AllocError>
    ensures { IfOk result (λ links. (f : FormulaForm) →
        chained (FormulaForm.connected connective) f (link_forms links.items)
        ≡ FormulaForm.connected connective place f (formula_form formula)) }
{
    match formula {
        Formula::Chain {
            connective: inner,
            first,
            links,
        } => {
            if inner == connective {
                let operand = Box::into_inner(first);
                return with_first(links, Link { place, operand });
            }
            let operand = Formula::Chain {
                connective: inner,
                first,
                links,
            };
            alone(alloc, Link { place, operand })
        }
        operand => alone(alloc, Link { place, operand }),
    }
}

/// Two formulas with a connective between them.
pub(crate) fn chained_formulas(
    alloc: Global,
    connective: Connective,
    place: Place,
    left: Formula,
    right: Formula,
) -> Result<Formula, AllocError>
    ensures formula { IfOk result (λ f. formula_of f
        ≡ joined connective (formula_of left) (formula_of right)) }
    ensures places { IfOk result (λ f. places_of f ≡ places_of left ++ places_of right) }
{
    let links = formula_links(alloc, connective, place, right);
    let (first, links) = first_and_links(alloc, left, links)?;
    Ok(Formula::Chain {
        connective,
        first,
        links,
    })
}
