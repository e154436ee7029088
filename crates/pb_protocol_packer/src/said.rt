//! Terms over the variables of a packed model.

ghost use Rattle.std.specs.Prelude.{◌≡◌, map, IfOk, box_value};
ghost use Rattle.pb_protocol_packing.specs.Said as digits;
ghost use Rattle.pb_protocol_packer.specs.View.{operands_of, operations_of, term_of, terms_of, name_bytes};
ghost use Rattle.pb_protocol_packer.specs.Scopes.{operation_said, scope_in};

use crate::builder::Builder;
use crate::comparison::{compared, digit_in};
use crate::digit::from_number;
use crate::node::{application, arithmetic, chain};
use crate::scope::{Hiding, Packing, digit_for};
use pb_base::both;
use pb_text_tree::{
    Argument, ArithmeticLink, Name, Term, TermLink, copy_name, copy_term, copy_variables,
};
use std::alloc::AllocError;

/// What a name says.
fn said_name(packing: &Packing<'_>, hiding: &Hiding<'_>, name: &Name) -> Result<Term, AllocError>
    ensures { IfOk result (λ t. term_of t ≡ digits.term_for
        (digits.digit_for (scope_in packing.now hiding.now) (name_bytes name.now))
        (name_bytes name.now)) }
{
    let Some(digit) = digit_for(packing, hiding, &name.text) else {
        return Ok(Term::Name(copy_name(packing.alloc, name)?));
    };
    let builder = Builder {
        alloc: packing.alloc,
        place: name.place,
    };
    let number = copy_term(packing.alloc, &digit.term)?;
    from_number(builder, digit.member, number)
}

#[cycle(terms)]
fn said_links(
    packing: &Packing<'_>,
    hiding: &Hiding<'_>,
    links: &[TermLink],
) -> Result<Vec<TermLink>, AllocError>
    ensures { IfOk result (λ v. operands_of v.items
        ≡ map (digits.said (scope_in packing.now hiding.now)) (operands_of links.now)) }
{
    let mut said_links = Vec::new(packing.alloc);
    for link in links {
        let operand = said(packing, hiding, &link.operand)?;
        said_links.push(TermLink {
            place: link.place,
            operand,
        })?;
    }
    Ok(said_links)
}

#[cycle(terms)]
fn said_operations(
    packing: &Packing<'_>,
    hiding: &Hiding<'_>,
    links: &[ArithmeticLink],
) -> Result<Vec<ArithmeticLink>, AllocError>
    ensures { IfOk result (λ v. operations_of v.items
        ≡ map (operation_said (scope_in packing.now hiding.now)) (operations_of links.now)) }
{
    let mut said_links = Vec::new(packing.alloc);
    for link in links {
        let operand = said(packing, hiding, &link.operand)?;
        said_links.push(ArithmeticLink {
            place: link.place,
            operator: link.operator,
            operand,
        })?;
    }
    Ok(said_links)
}

#[cycle(terms)]
fn said_arguments(
    packing: &Packing<'_>,
    hiding: &Hiding<'_>,
    arguments: &[Argument],
) -> Result<Vec<Argument>, AllocError>
    ensures { IfOk result (λ v. terms_of v.items
        ≡ digits.all_said (scope_in packing.now hiding.now) (terms_of arguments.now)) }
{
    let mut said_arguments = Vec::new(packing.alloc);
    for argument in arguments {
        let term = said(packing, hiding, &argument.term)?;
        said_arguments.push(Argument {
            place: argument.place,
            term,
        })?;
    }
    Ok(said_arguments)
}

/// What a term says, in a box of its own.
#[cycle(terms)]
fn said_boxed(
    packing: &Packing<'_>,
    hiding: &Hiding<'_>,
    term: &Box<Term>,
) -> Result<Box<Term>, AllocError>
    ensures { IfOk result (λ t. term_of (box_value t)
        ≡ digits.said (scope_in packing.now hiding.now) (term_of (box_value term.now))) }
{
    let said = said(packing, hiding, term)?;
    Ok(Box::new(packing.alloc, said)?)
}

/// What a term says over the variables of the packed model.
#[cycle(terms)]
pub(crate) fn said(
    packing: &Packing<'_>,
    hiding: &Hiding<'_>,
    term: &Term,
) -> Result<Term, AllocError>
    ensures { IfOk result (λ t. term_of t
        ≡ digits.said (scope_in packing.now hiding.now) (term_of term.now)) }
{
    match term {
        Term::Constant { .. } | Term::Number { .. } => copy_term(packing.alloc, term),
        Term::Name(name) => said_name(packing, hiding, name),
        Term::Not { place, operand } => Ok(Term::Not {
            place: *place,
            operand: said_boxed(packing, hiding, operand)?,
        }),
        Term::Negative { place, operand } => Ok(Term::Negative {
            place: *place,
            operand: said_boxed(packing, hiding, operand)?,
        }),
        Term::Chain {
            connective,
            first,
            links,
        } => {
            let first = said(packing, hiding, first)?;
            let (first, links) = both(first, said_links(packing, hiding, links))?;
            chain(packing.alloc, *connective, first, links)
        }
        Term::Comparison {
            place,
            comparison,
            left,
            right,
        } => {
            let digit = digit_in(packing, hiding, left);
            let left = said(packing, hiding, left)?;
            let (left, right) = both(left, said(packing, hiding, right))?;
            let builder = Builder {
                alloc: packing.alloc,
                place: *place,
            };
            compared(builder, *comparison, digit, left, right)
        }
        Term::Arithmetic { first, links } => {
            let first = said(packing, hiding, first)?;
            let (first, links) = both(first, said_operations(packing, hiding, links))?;
            arithmetic(packing.alloc, first, links)
        }
        Term::Application {
            function,
            arguments,
        } => {
            let function = copy_name(packing.alloc, function)?;
            let arguments = said_arguments(packing, hiding, arguments)?;
            Ok(application(function, arguments))
        }
        Term::Quantified {
            place,
            quantifier,
            variables,
            body,
        } => {
            let inner = Hiding::Inner(variables, hiding);
            Ok(Term::Quantified {
                place: *place,
                quantifier: *quantifier,
                variables: copy_variables(packing.alloc, variables)?,
                body: said_boxed(packing, &inner, body)?,
            })
        }
    }
}
