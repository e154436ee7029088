//! Nodes of data terms with operands in a row.

ghost use Rattle.std.specs.Prelude.{◌≡◌, IfOk};
ghost use Rattle.pb_text_meaning.specs.Syntax as syntax;
ghost use Rattle.pb_text_meaning.specs.Erase.{of_connective};
ghost use Rattle.pb_protocol_packer.specs.View.{calculated_terms, joined_terms, operands_of};
ghost use Rattle.pb_protocol_packer.specs.View.{operations_of, term_of, terms_of, name_bytes};

use pb_text_tree::{Argument, ArithmeticLink, Connective, Name, Term, TermLink};
use std::alloc::{AllocError, Global};

/// The operands of a chain.
pub(crate) fn chain(
    alloc: Global,
    connective: Connective,
    first: Term,
    links: Vec<TermLink>,
) -> Result<Term, AllocError>
    ensures { IfOk result (λ t. term_of t
        ≡ joined_terms (of_connective connective) (term_of first) (operands_of links.items)) }
{
    let first = Box::new(alloc, first)?;
    Ok(Term::Chain {
        connective,
        first,
        links,
    })
}

/// The operands of arithmetic.
pub(crate) fn arithmetic(
    alloc: Global,
    first: Term,
    links: Vec<ArithmeticLink>,
) -> Result<Term, AllocError>
    ensures { IfOk result
        (λ t. term_of t ≡ calculated_terms (term_of first) (operations_of links.items)) }
{
    let first = Box::new(alloc, first)?;
    Ok(Term::Arithmetic { first, links })
}

/// A function with its arguments.
pub(crate) fn application(function: Name, arguments: Vec<Argument>) -> Term
    ensures { term_of result
        ≡ syntax.Term.Apply (name_bytes function) (terms_of arguments.items) }
{
    Term::Application {
        function,
        arguments,
    }
}
