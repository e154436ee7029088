//! Reads formulas, by recursive descent. A chain of one connective is read by a loop, so that the
//! recursion is as deep as brackets, negations and quantifiers nest.

ghost use Rattle.std.specs.Prelude.{◌≡◌, ◌≤◌, length, IfOk, OnOk};
ghost use Rattle.pb_text_tree.specs.Form.{FormulaForm, formula_form, term_form, chained};
ghost use Rattle.pb_text_tree.specs.Form.{link_forms};
ghost use Rattle.pb_text_lexer.specs.Grammar.{State};
ghost use Rattle.pb_text_lexer.specs.Steps as spec;
ghost use Rattle.pb_text_lexer.specs.Steps.{Gives};
ghost use Rattle.pb_text_terms.specs.Operators as operators;
ghost use Rattle.pb_text_terms.specs.Readers.{ReadsSome, ReadsOn, HasRead};
ghost use Rattle.pb_text_terms.specs.Reading as expressions;
ghost use Rattle.pb_text_formulas.specs.Reading as reading;

use crate::next::{open, unless};
use pb_base::both;
use pb_text_lexer::fault::{ReadingError, ReadingRule};
use pb_text_lexer::input::Input;
use pb_text_lexer::kind::{Kind, same_kind};
use pb_text_terms::operator::{is_connective, quantifier, symbol};
use pb_text_terms::term::{instance, term};
use pb_text_terms::variable::variables;
use pb_text_tree::{Connective, Formula, Link, Quantifier, Term};
use std::alloc::{AllocError, Global};

/// The node of a chain, or its first operand where there is no other.
fn joined(
    alloc: Global,
    connective: Connective,
    first: Formula,
    links: Vec<Link>,
) -> Result<Formula, AllocError>
    ensures { IfOk result (λ f. formula_form f
        ≡ chained (FormulaForm.connected connective) (formula_form first)
        (link_forms links.items)) }
{
    if links.is_empty() {
        return Ok(first);
    }
    let first = Box::new(alloc, first)?;
    Ok(Formula::Chain {
        connective,
        first,
        links,
    })
}

/// The data term behind `val`, in which so many levels may open.
#[tactic(auto, unfolding(crate::specs::Reading::data_term))]
fn data_term(input: &mut Input<'_>, alloc: Global, depth: u32) -> Result<Term, ReadingError>
    ensures { ReadsSome term_form (reading.data_term depth) input.old result input.new }
{
    term(input, alloc, depth)
}

/// `!` and its operand.
#[cycle(formulas)]
#[inline(never)]
#[tactic(auto, unfolding(crate::specs::Reading::node))]
fn negation(input: &mut Input<'_>, alloc: Global, depth: u32) -> Result<Formula, ReadingError>
    requires { spec.kind input.old ≡ Kind.Not }
    ensures { ReadsSome formula_form (reading.node depth) input.old result input.new }
{
    let place = input.enter(depth)?.place;
    let operand = node(input, alloc, depth - 1)?;
    let operand = Box::new(alloc, operand)?;
    Ok(Formula::Negation { place, operand })
}

/// A formula in brackets.
#[cycle(formulas)]
#[inline(never)]
#[tactic(auto, unfolding(crate::specs::Reading::node))]
fn bracketed(input: &mut Input<'_>, alloc: Global, depth: u32) -> Result<Formula, ReadingError>
    requires { spec.kind input.old ≡ Kind.Open }
    ensures { ReadsSome formula_form (reading.node depth) input.old result input.new }
{
    input.enter(depth)?;
    let inner = formula(input, alloc, depth - 1)?;
    let (inner, _) = both(inner, input.expect(Kind::Close))?;
    let (inner, _) = both(inner, unless(input, Kind::Open))?;
    Ok(inner)
}

/// `val` and its data term.
#[inline(never)]
#[tactic(auto, unfolding(crate::specs::Reading::node))]
fn value(input: &mut Input<'_>, alloc: Global, depth: u32) -> Result<Formula, ReadingError>
    requires { spec.kind input.old ≡ Kind.Val }
    ensures { ReadsSome formula_form (reading.node depth) input.old result input.new }
{
    let place = input.take().place;
    open(input, depth)?;
    let term = data_term(input, alloc, depth - 1)?;
    let (term, _) = both(term, input.expect(Kind::Close))?;
    let (term, _) = both(term, unless(input, Kind::Open))?;
    Ok(Formula::Value { place, term })
}

/// A negation, a formula in brackets, a constant, a data term or an instance, in which so many
/// levels may open.
#[cycle(formulas)]
#[tactic(auto, unfolding(crate::specs::Reading::node))]
fn node(input: &mut Input<'_>, alloc: Global, depth: u32) -> Result<Formula, ReadingError>
    ensures { ReadsSome formula_form (reading.node depth) input.old result input.new }
{
    match input.kind() {
        Kind::Not => negation(input, alloc, depth),
        Kind::Open => bracketed(input, alloc, depth),
        Kind::True => {
            let place = input.take().place;
            unless(input, Kind::Open)?;
            Ok(Formula::Constant { place, value: true })
        }
        Kind::False => {
            let place = input.take().place;
            unless(input, Kind::Open)?;
            Ok(Formula::Constant {
                place,
                value: false,
            })
        }
        Kind::Val => value(input, alloc, depth),
        Kind::Name => Ok(Formula::Instance(instance(input, alloc, depth)?)),
        _ => Err(ReadingError::Refused(input.refuse(ReadingRule::Unexpected))),
    }
}

/// A quantifier, its variables and its body, in which so many levels may open.
#[cycle(formulas)]
#[inline(never)]
#[tactic(auto, unfolding(crate::specs::Reading::quantification))]
fn quantified(
    input: &mut Input<'_>,
    alloc: Global,
    quantifier: Quantifier,
    depth: u32,
) -> Result<Formula, ReadingError>
    requires { expressions.quantifier_of (spec.kind input.old) ≡ Some quantifier }
    ensures { ReadsSome formula_form (reading.quantification depth) input.old result input.new }
{
    let place = input.enter(depth)?.place;
    let variables = variables(input, alloc)?;
    input.expect(Kind::Period)?;
    let body = formula(input, alloc, depth - 1)?;
    let body = Box::new(alloc, body)?;
    Ok(Formula::Quantified {
        place,
        quantifier,
        variables,
        body,
    })
}

/// An operand of a chain of the connective.
#[cycle(formulas)]
fn operand(
    input: &mut Input<'_>,
    alloc: Global,
    connective: Connective,
    depth: u32,
) -> Result<Formula, ReadingError>
    ensures { ReadsSome formula_form (reading.operand connective depth) input.old result input.new }
{
    match connective {
        Connective::And => match quantifier(input.kind()) {
            Some(quantifier) => quantified(input, alloc, quantifier, depth),
            None => node(input, alloc, depth),
        },
        Connective::Or => level(input, alloc, Connective::And, depth),
        Connective::Implies => level(input, alloc, Connective::Or, depth),
    }
}

/// The links of the chain of the connective that a first operand begins.
#[cycle(formulas)]
#[inline(never)]
fn links_behind(
    input: &mut Input<'_>,
    alloc: Global,
    connective: Connective,
    depth: u32,
) -> Result<Vec<Link>, ReadingError>
    ensures reads { (s : State) (x : FormulaForm)
        → HasRead (reading.operand connective depth) x input.old s
        → Gives (λ v. chained (FormulaForm.connected connective) x (link_forms v.items))
        (reading.level connective depth s) result input.new }
    ensures fewer { OnOk result (length input.new.tokens ≤ length input.old.tokens) }
{
    let mut links = Vec::with_capacity(alloc, 1)?;
    'links: while same_kind(input.kind(), symbol(connective)) {
        let place = input.take_operator()?.place;
        let operand = operand(input, alloc, connective, depth)?;
        links.push(Link { place, operand })?;
    }
    Ok(links)
}

/// The chain of the connective that a first operand begins.
#[cycle(formulas)]
#[inline(never)]
fn chain(
    input: &mut Input<'_>,
    alloc: Global,
    connective: Connective,
    depth: u32,
    first: Formula,
) -> Result<Formula, ReadingError>
    ensures { ReadsOn formula_form (reading.level connective depth)
        (HasRead (reading.operand connective depth) (formula_form first) input.old)
        input.old result input.new }
{
    let links = links_behind(input, alloc, connective, depth);
    let (start, links) = both(first, links)?;
    Ok(joined(alloc, connective, start, links)?)
}

/// The chain of the connective that a first operand begins, or that operand alone.
#[cycle(formulas)]
#[inline(always)]
fn chain_behind(
    input: &mut Input<'_>,
    alloc: Global,
    connective: Connective,
    depth: u32,
    first: Formula,
) -> Result<Formula, ReadingError>
    ensures { ReadsOn formula_form (reading.level connective depth)
        (HasRead (reading.operand connective depth) (formula_form first) input.old)
        input.old result input.new }
{
    if !same_kind(input.kind(), symbol(connective)) {
        return Ok(first);
    }
    chain(input, alloc, connective, depth, first)
}

/// A chain of the connective, in which so many levels may open.
#[cycle(formulas)]
fn level(
    input: &mut Input<'_>,
    alloc: Global,
    connective: Connective,
    depth: u32,
) -> Result<Formula, ReadingError>
    ensures { ReadsSome formula_form (reading.level connective depth) input.old result input.new }
{
    let first = operand(input, alloc, connective, depth);
    if !same_kind(input.kind(), symbol(connective)) {
        return first;
    }
    chain(input, alloc, connective, depth, first?)
}

/// A formula, whose first part without connectives is read.
#[cycle(formulas)]
#[inline(never)]
fn connectives_behind(
    input: &mut Input<'_>,
    alloc: Global,
    depth: u32,
    first: Formula,
) -> Result<Formula, ReadingError>
    ensures { ReadsOn formula_form (reading.formula depth)
        (HasRead (reading.primary depth) (formula_form first) input.old)
        input.old result input.new }
{
    let conjunction = chain_behind(input, alloc, Connective::And, depth, first)?;
    let disjunction = chain_behind(input, alloc, Connective::Or, depth, conjunction)?;
    chain_behind(input, alloc, Connective::Implies, depth, disjunction)
}

/// A formula, in which so many levels may open. Most often no connective follows its first part at
/// all.
///
/// The first token with which no formula goes on is refused as `ReadingRule::Unexpected`, and one
/// that opens a level or is an operator more than may be as `ReadingRule::Limit`.
#[cycle(formulas)]
pub fn formula(input: &mut Input<'_>, alloc: Global, depth: u32) -> Result<Formula, ReadingError>
    ensures { ReadsSome formula_form (reading.formula depth) input.old result input.new }
{
    let first = operand(input, alloc, Connective::And, depth);
    if !is_connective(input.kind()) {
        return first;
    }
    connectives_behind(input, alloc, depth, first?)
}
