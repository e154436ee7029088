//! Reads what stands behind a first operand: chains of arithmetic, a comparison, and chains of
//! connectives.

ghost use Rattle.std.specs.Prelude.{◌≡◌, ◌≤◌, true, length, Some, Ok, OnOk, IsTrue};
ghost use Rattle.pb_text_tree.specs.Form.{TermForm, term_form, chained};
ghost use Rattle.pb_text_tree.specs.Form.{arithmetic_links, term_links};
ghost use Rattle.pb_text_lexer.specs.Grammar.{State};
ghost use Rattle.pb_text_lexer.specs.Steps as steps;
ghost use Rattle.pb_text_lexer.specs.Steps.{Gives};
ghost use Rattle.pb_text_terms.specs.Levels as levels;
ghost use Rattle.pb_text_terms.specs.Readers.{ReadsSome, ReadsOn, HasRead, BeginsAt};
ghost use Rattle.pb_text_terms.specs.Reading as reading;

use crate::level::{Operator, Relation, is_related, operand_level};
use crate::node::{calculated, compared, joined};
use crate::operator::{Operators, arithmetic, is_among, is_mixed, symbol};
use crate::term::term_at;
use pb_base::both;
use pb_text_lexer::fault::{ReadingError, ReadingRule};
use pb_text_lexer::input::Input;
use pb_text_lexer::kind::same_kind;
use pb_text_tree::{ArithmeticLink, Connective, Term, TermLink};
use std::alloc::Global;

/// What operators make of a first operand, behind which one of them stands.
#[cycle(terms)]
pub(crate) fn joined_by(
    input: &mut Input<'_>,
    alloc: Global,
    depth: u32,
    operator: Operator,
    first: Term,
) -> Result<Term, ReadingError>
    requires { levels.operator_of_token (steps.kind input.old) ≡ Some operator }
    ensures { ReadsOn term_form (reading.at (levels.level_of operator) depth)
        (BeginsAt (levels.operand_level operator) (levels.level_of operator) depth
        (term_form first) input.old) input.old result input.new }
{
    match operator {
        Operator::Arithmetic(operators) => calculated_by(input, alloc, depth, operators, first),
        Operator::Relation(relation) => related_by(input, alloc, depth, relation, first),
        Operator::Connective(connective) => connected_by(input, alloc, depth, connective, first),
    }
}

/// What operators of arithmetic make of a first operand and of those behind it, one or more.
#[cycle(terms)]
#[inline(never)]
fn calculated_by(
    input: &mut Input<'_>,
    alloc: Global,
    depth: u32,
    operators: Operators,
    first: Term,
) -> Result<Term, ReadingError>
    requires { IsTrue (reading.is_among operators (steps.kind input.old)) }
    ensures { ReadsOn term_form
        (reading.at (levels.level_of (Operator.Arithmetic operators)) depth)
        (λ s. reading.at (levels.operand_level (Operator.Arithmetic operators)) depth s
        ≡ Ok (term_form first, input.old)) input.old result input.new }
{
    let links = operations(input, alloc, depth, operators);
    let (first, links) = both(first, links)?;
    if is_mixed(operators, input.kind()) {
        drop(first);
        return Err(ReadingError::Refused(input.refuse(ReadingRule::Unexpected)));
    }
    Ok(calculated(alloc, first, links)?)
}

/// Operators of arithmetic with the operand behind each, one or more.
#[cycle(terms)]
fn operations(
    input: &mut Input<'_>,
    alloc: Global,
    depth: u32,
    operators: Operators,
) -> Result<Vec<ArithmeticLink>, ReadingError>
    requires { IsTrue (reading.is_among operators (steps.kind input.old)) }
    ensures { ReadsSome (λ v. arithmetic_links v.items)
        (reading.operations operators (reading.at (levels.operand_level
        (Operator.Arithmetic operators)) depth)) input.old result input.new }
{
    let level = operand_level(Operator::Arithmetic(operators));
    let mut links = Vec::with_capacity(alloc, 1)?;
    'operations: loop {
        let sign = input.take_operator()?;
        let operand = term_at(input, alloc, depth, level)?;
        links.push(ArithmeticLink {
            place: sign.place,
            operator: arithmetic(sign.kind),
            operand,
        })?;
        if !is_among(operators, input.kind()) {
            return Ok(links);
        }
    }
}

/// What a comparison makes of a first operand and of the one behind it.
#[cycle(terms)]
#[inline(never)]
fn related_by(
    input: &mut Input<'_>,
    alloc: Global,
    depth: u32,
    relation: Relation,
    left: Term,
) -> Result<Term, ReadingError>
    requires { levels.is_related relation (steps.kind input.old) ≡ true }
    ensures { ReadsOn term_form
        (reading.at (levels.level_of (Operator.Relation relation)) depth)
        (λ s. reading.at (levels.operand_level (Operator.Relation relation)) depth s
        ≡ Ok (term_form left, input.old)) input.old result input.new }
{
    let (left, sign) = both(left, input.take_operator())?;
    let level = operand_level(Operator::Relation(relation));
    let right = term_at(input, alloc, depth, level);
    let (left, right) = both(left, right)?;
    if is_related(relation, input.kind()) {
        drop(left);
        drop(right);
        return Err(ReadingError::Refused(input.refuse(ReadingRule::Unexpected)));
    }
    Ok(compared(alloc, sign, left, right)?)
}

/// The links of the chain of a connective that a first operand begins.
#[cycle(terms)]
#[inline(never)]
fn links_behind(
    input: &mut Input<'_>,
    alloc: Global,
    depth: u32,
    connective: Connective,
) -> Result<Vec<TermLink>, ReadingError>
    ensures reads { (s : State) (x : TermForm)
        → HasRead (reading.at (levels.operand_level (Operator.Connective connective)) depth) x
        input.old s
        → Gives (λ v. chained (TermForm.connected connective) x (term_links v.items))
        (reading.at (levels.level_of (Operator.Connective connective)) depth s)
        result input.new }
    ensures fewer { OnOk result (length input.new.tokens ≤ length input.old.tokens) }
{
    let level = operand_level(Operator::Connective(connective));
    let mut links = Vec::with_capacity(alloc, 1)?;
    'links: while same_kind(input.kind(), symbol(connective)) {
        let place = input.take_operator()?.place;
        let operand = term_at(input, alloc, depth, level)?;
        links.push(TermLink { place, operand })?;
    }
    Ok(links)
}

/// The chain of a connective that a first operand begins.
#[cycle(terms)]
#[inline(never)]
fn connected_by(
    input: &mut Input<'_>,
    alloc: Global,
    depth: u32,
    connective: Connective,
    first: Term,
) -> Result<Term, ReadingError>
    ensures { ReadsOn term_form
        (reading.at (levels.level_of (Operator.Connective connective)) depth)
        (HasRead (reading.at (levels.operand_level (Operator.Connective connective)) depth)
        (term_form first) input.old) input.old result input.new }
{
    let links = links_behind(input, alloc, depth, connective);
    let (start, links) = both(first, links)?;
    Ok(joined(alloc, connective, start, links)?)
}
