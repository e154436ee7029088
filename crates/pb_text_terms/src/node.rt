//! Nodes of data terms, and the terms that are one token.

ghost use Rattle.std.specs.Prelude.{◌≡◌, false, IfOk};
ghost use Rattle.pb_text_tree.specs.Form as form;
ghost use Rattle.pb_text_tree.specs.Form.{TermForm, term_form, term_links, arithmetic_links};
ghost use Rattle.pb_text_tree.specs.Form.{argument_forms};
ghost use Rattle.pb_text_lexer.specs.Kinds.{is_last};
ghost use Rattle.pb_text_lexer.specs.Steps as steps;
ghost use Rattle.pb_text_lexer.specs.Steps.{GivesExactly};
ghost use Rattle.pb_text_lexer.specs.Tokens.{tok};
ghost use Rattle.pb_text_terms.specs.Grammar as grammar;
ghost use Rattle.pb_text_terms.specs.Operators as operators;
ghost use Rattle.pb_text_terms.specs.Readers.{ReadsSomeExactly};
ghost use Rattle.pb_text_terms.specs.Reading as reading;

use crate::operator::comparison;
use pb_base::both;
use pb_text_lexer::fault::{ReadingRule, Refusal};
use pb_text_lexer::input::Input;
use pb_text_lexer::kind::{Kind, same_kind};
use pb_text_lexer::token::Token;
use pb_text_tree::{ArithmeticLink, Connective, Instance, Term, TermLink};
use std::alloc::{AllocError, Global};

/// The node of a chain, or its first operand where there is no other.
pub fn joined(
    alloc: Global,
    connective: Connective,
    first: Term,
    links: Vec<TermLink>,
) -> Result<Term, AllocError>
    ensures { IfOk result (λ t. term_form t ≡ form.chained (TermForm.connected connective)
        (term_form first) (term_links links.items)) }
{
    if links.is_empty() {
        return Ok(first);
    }
    let first = Box::new(alloc, first)?;
    Ok(Term::Chain {
        connective,
        first,
        links,
    })
}

/// The node of operands of arithmetic.
pub fn calculated(
    alloc: Global,
    first: Term,
    links: Vec<ArithmeticLink>,
) -> Result<Term, AllocError>
    ensures { IfOk result (λ t. term_form t ≡ form.calculated (term_form first)
        (arithmetic_links links.items)) }
{
    let first = Box::new(alloc, first)?;
    Ok(Term::Arithmetic { first, links })
}

/// The node of two terms with a comparison's sign between them.
pub fn compared(alloc: Global, sign: Token<'_>, left: Term, right: Term) -> Result<Term, AllocError>
    ensures { IfOk result (λ t. term_form t ≡ operators.compared_by (term_form left)
        (tok sign.entry) (term_form right)) }
{
    let (right, left) = both(right, Box::new(alloc, left))?;
    let right = Box::new(alloc, right)?;
    Ok(Term::Comparison {
        place: sign.place,
        comparison: comparison(sign.kind),
        left,
        right,
    })
}

/// A name without arguments, or a function's application.
pub fn applied(instance: Instance) -> Term
    ensures { term_form result ≡ grammar.applied (form.named instance.name)
        (argument_forms instance.arguments.items) }
{
    let Instance { name, arguments } = instance;
    if arguments.is_empty() {
        Term::Name(name)
    } else {
        Term::Application {
            function: name,
            arguments,
        }
    }
}

/// A term behind which no bracket may open.
///
/// A bracket that opens there is refused as `ReadingRule::Unexpected`, which is the one error.
pub fn closed(input: &Input<'_>, term: Term) -> Result<Term, Refusal>
    ensures { GivesExactly term_form (reading.closed (term_form term) input.now) result input.now }
{
    if same_kind(input.kind(), Kind::Open) {
        drop(term);
        Err(input.refuse(ReadingRule::Unexpected))
    } else {
        Ok(term)
    }
}

/// A number, behind which no bracket may open.
///
/// A bracket that opens there is refused as `ReadingRule::Unexpected`, which is the one error.
#[inline(never)]
pub fn number(input: &mut Input<'_>) -> Result<Term, Refusal>
    requires { steps.kind input.old ≡ Kind.Number }
    ensures { ReadsSomeExactly term_form reading.numeral input.old result input.new }
{
    let value = input.number();
    let place = input.take().place;
    closed(input, Term::Number { place, value })
}

/// `true` or `false`, behind which no bracket may open.
///
/// A bracket that opens there is refused as `ReadingRule::Unexpected`, which is the one error.
#[inline(never)]
pub fn constant(input: &mut Input<'_>, value: bool) -> Result<Term, Refusal>
    requires { is_last (steps.kind input.old) ≡ false }
    ensures { ReadsSomeExactly term_form (reading.truth value) input.old result input.new }
{
    let place = input.take().place;
    closed(input, Term::Constant { place, value })
}
