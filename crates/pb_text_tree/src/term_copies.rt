//! Copies data terms, places included.

ghost use Rattle.std.specs.Prelude.{◌≡◌, IfOk, box_value};
ghost use Rattle.pb_text_tree.specs.Form.{argument_forms, arithmetic_links, term_form, term_links};

use crate::variable_copies::{copy_name, copy_variables};
use crate::{Argument, ArithmeticLink, Term, TermLink};
use std::alloc::{AllocError, Global};

#[cycle(terms)]
fn copy_links(alloc: Global, links: &[TermLink]) -> Result<Vec<TermLink>, AllocError>
    ensures { IfOk result (λ v. term_links v.items ≡ term_links links.now) }
{
    let mut copies = Vec::new(alloc);
    for link in links {
        let operand = copy_term(alloc, &link.operand)?;
        copies.push(TermLink {
            place: link.place,
            operand,
        })?;
    }
    Ok(copies)
}

#[cycle(terms)]
fn copy_operations(
    alloc: Global,
    links: &[ArithmeticLink],
) -> Result<Vec<ArithmeticLink>, AllocError>
    ensures { IfOk result (λ v. arithmetic_links v.items ≡ arithmetic_links links.now) }
{
    let mut copies = Vec::new(alloc);
    for link in links {
        let operand = copy_term(alloc, &link.operand)?;
        copies.push(ArithmeticLink {
            place: link.place,
            operator: link.operator,
            operand,
        })?;
    }
    Ok(copies)
}

/// Arguments that are equal, in order, places included.
///
/// # Errors
/// Memory was refused.
#[cycle(terms)]
pub fn copy_arguments(alloc: Global, arguments: &[Argument]) -> Result<Vec<Argument>, AllocError>
    ensures { IfOk result (λ v. argument_forms v.items ≡ argument_forms arguments.now) }
{
    let mut copies = Vec::new(alloc);
    for argument in arguments {
        let term = copy_term(alloc, &argument.term)?;
        copies.push(Argument {
            place: argument.place,
            term,
        })?;
    }
    Ok(copies)
}

/// A term that is equal, in a box of its own.
#[cycle(terms)]
fn copy_boxed(alloc: Global, term: &Box<Term>) -> Result<Box<Term>, AllocError>
    ensures { IfOk result (λ copy. term_form (box_value copy) ≡ term_form (box_value term.now)) }
{
    let copy = copy_term(alloc, term)?;
    Ok(Box::new(alloc, copy)?)
}

/// A term that is equal, places included.
///
/// # Errors
/// Memory was refused.
#[cycle(terms)]
pub fn copy_term(alloc: Global, term: &Term) -> Result<Term, AllocError>
    ensures { IfOk result (λ t. term_form t ≡ term_form term.now) }
{
    match term {
        Term::Constant { place, value } => Ok(Term::Constant {
            place: *place,
            value: *value,
        }),
        Term::Number { place, value } => Ok(Term::Number {
            place: *place,
            value: *value,
        }),
        Term::Name(name) => Ok(Term::Name(copy_name(alloc, name)?)),
        Term::Not { place, operand } => Ok(Term::Not {
            place: *place,
            operand: copy_boxed(alloc, operand)?,
        }),
        Term::Negative { place, operand } => Ok(Term::Negative {
            place: *place,
            operand: copy_boxed(alloc, operand)?,
        }),
        Term::Chain {
            connective,
            first,
            links,
        } => Ok(Term::Chain {
            connective: *connective,
            first: copy_boxed(alloc, first)?,
            links: copy_links(alloc, links)?,
        }),
        Term::Comparison {
            place,
            comparison,
            left,
            right,
        } => Ok(Term::Comparison {
            place: *place,
            comparison: *comparison,
            left: copy_boxed(alloc, left)?,
            right: copy_boxed(alloc, right)?,
        }),
        Term::Arithmetic { first, links } => Ok(Term::Arithmetic {
            first: copy_boxed(alloc, first)?,
            links: copy_operations(alloc, links)?,
        }),
        Term::Application {
            function,
            arguments,
        } => Ok(Term::Application {
            function: copy_name(alloc, function)?,
            arguments: copy_arguments(alloc, arguments)?,
        }),
        Term::Quantified {
            place,
            quantifier,
            variables,
            body,
        } => Ok(Term::Quantified {
            place: *place,
            quantifier: *quantifier,
            variables: copy_variables(alloc, variables)?,
            body: copy_boxed(alloc, body)?,
        }),
    }
}
