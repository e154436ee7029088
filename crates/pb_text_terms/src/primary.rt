//! Reads what stands between operators: signs and their operands, brackets, numbers, constants,
//! names and quantifiers.

ghost use Rattle.std.specs.Prelude.{◌≡◌};
ghost use Rattle.pb_text_tree.specs.Form.{term_form};
ghost use Rattle.pb_text_lexer.specs.Steps as steps;
ghost use Rattle.pb_text_terms.specs.Readers.{ReadsSome};
ghost use Rattle.pb_text_terms.specs.Reading as reading;

use crate::instance::instance;
use crate::level::Level;
use crate::node::{applied, closed, constant, number};
use crate::operator::quantifier;
use crate::term::term_at;
use crate::variable::variables;
use pb_base::both;
use pb_text_counting::counted;
use pb_text_lexer::fault::{ReadingError, ReadingRule};
use pb_text_lexer::input::Input;
use pb_text_lexer::kind::{Kind, same_kind};
use pb_text_tree::Term;
use std::alloc::Global;

/// A sign, a bracket, a number, a constant or a name, in which so many levels may open.
#[cycle(terms)]
pub fn unary(input: &mut Input<'_>, alloc: Global, depth: u32) -> Result<Term, ReadingError>
    ensures { ReadsSome term_form (reading.unary depth) input.old result input.new }
{
    match input.kind() {
        Kind::Not => negation(input, alloc, depth),
        Kind::Minus => negative(input, alloc, depth),
        Kind::Open => bracketed(input, alloc, depth),
        Kind::Number => Ok(number(input)?),
        Kind::True => Ok(constant(input, true)?),
        Kind::False => Ok(constant(input, false)?),
        Kind::Name => {
            let instance = instance(input, alloc, depth)?;
            Ok(applied(instance))
        }
        _ => Err(ReadingError::Refused(input.refuse(ReadingRule::Unexpected))),
    }
}

/// `!` and its operand.
#[cycle(terms)]
#[inline(never)]
fn negation(input: &mut Input<'_>, alloc: Global, depth: u32) -> Result<Term, ReadingError>
    requires { steps.kind input.old ≡ Kind.Not }
    ensures { ReadsSome term_form (reading.unary depth) input.old result input.new }
{
    let place = input.enter(depth)?.place;
    let operand = unary(input, alloc, depth - 1)?;
    let operand = Box::new(alloc, operand)?;
    Ok(Term::Not { place, operand })
}

/// `-` and its operand.
#[cycle(terms)]
#[inline(never)]
fn negative(input: &mut Input<'_>, alloc: Global, depth: u32) -> Result<Term, ReadingError>
    requires { steps.kind input.old ≡ Kind.Minus }
    ensures { ReadsSome term_form (reading.unary depth) input.old result input.new }
{
    let place = input.enter(depth)?.place;
    let operand = unary(input, alloc, depth - 1)?;
    let operand = Box::new(alloc, operand)?;
    Ok(Term::Negative { place, operand })
}

/// A term in brackets.
#[cycle(terms)]
#[inline(never)]
fn bracketed(input: &mut Input<'_>, alloc: Global, depth: u32) -> Result<Term, ReadingError>
    requires { steps.kind input.old ≡ Kind.Open }
    ensures { ReadsSome term_form (reading.unary depth) input.old result input.new }
{
    input.enter(depth)?;
    let inner = term_at(input, alloc, depth - 1, Level::Implication)?;
    let (inner, _) = both(inner, input.expect(Kind::Close))?;
    Ok(closed(input, inner)?)
}

/// `count`, its variables and its body.
#[cycle(terms)]
#[inline(never)]
fn counting(input: &mut Input<'_>, alloc: Global, depth: u32) -> Result<Term, ReadingError>
    requires { steps.kind input.old ≡ Kind.Count }
    ensures { ReadsSome term_form (reading.quantified_term depth) input.old result input.new }
{
    let place = input.enter(depth)?.place;
    let variables = variables(input, alloc)?;
    let (variables, _) = both(variables, input.expect(Kind::Period))?;
    let body = term_at(input, alloc, depth - 1, Level::Implication);
    let (variables, body) = both(variables, body)?;
    Ok(counted(alloc, place, variables, body)?)
}

/// A quantifier, its variables and its body.
#[cycle(terms)]
#[inline(never)]
fn quantifying(input: &mut Input<'_>, alloc: Global, depth: u32) -> Result<Term, ReadingError>
    ensures { ReadsSome term_form (reading.quantifier_term depth) input.old result input.new }
{
    let Some(quantifier) = quantifier(input.kind()) else {
        return Err(ReadingError::Refused(input.refuse(ReadingRule::Unexpected)));
    };
    let place = input.enter(depth)?.place;
    let variables = variables(input, alloc)?;
    input.expect(Kind::Period)?;
    let body = term_at(input, alloc, depth - 1, Level::Implication)?;
    let body = Box::new(alloc, body)?;
    Ok(Term::Quantified {
        place,
        quantifier,
        variables,
        body,
    })
}

/// A quantifier or `count`, its variables and its body.
#[cycle(terms)]
pub(crate) fn quantified(
    input: &mut Input<'_>,
    alloc: Global,
    depth: u32,
) -> Result<Term, ReadingError>
    ensures { ReadsSome term_form (reading.quantified_term depth) input.old result input.new }
{
    if same_kind(input.kind(), Kind::Count) {
        counting(input, alloc, depth)
    } else {
        quantifying(input, alloc, depth)
    }
}
