//! Reads formulas, by recursive descent. A chain of one connective is read by a loop, so that the
//! recursion is as deep as brackets, negations, modalities, fixpoints and quantifiers nest.

ghost use Rattle.std.specs.Prelude.{◌≡◌, ◌<◌, ◌≤◌, true, false, length, Some, Ok, OnOk};
ghost use Rattle.pb_text_tree.specs.Form.{chained};
ghost use Rattle.pb_text_lexer.specs.Grammar.{State};
ghost use Rattle.pb_text_lexer.specs.Steps as spec;
ghost use Rattle.pb_text_lexer.specs.Steps.{Gives};
ghost use Rattle.pb_text_terms.specs.Readers.{HasRead, ReadsOn, ReadsSome};
ghost use Rattle.pb_text_terms.specs.Reading as terms;
ghost use Rattle.pb_text_formulas.specs.Reading.{is_name_kind};
ghost use Rattle.pb_protocol_tree.specs.Form.{FormulaForm, formula_form};
ghost use Rattle.pb_protocol_tree.specs.Links.{link_forms};
ghost use Rattle.pb_model_text.specs.Grammar as grammar;
ghost use Rattle.pb_model_text.specs.Reading as reading;
ghost use Rattle.pb_model_text.specs.Reading.{names_of};

use crate::atom::{close, constant, data_atom, value};
use crate::fixpoint::{extended, sign};
use crate::modality::{modal_node, modal_steps};
use crate::node::joined;
use crate::scope::Scope;
use crate::worded::{item, node};
use pb_base::both;
use pb_fixpoint::Sign;
use pb_model_tree::Modality;
use pb_protocol_tree::{Formula, Link};
use pb_text_lexer::fault::{ReadingError, ReadingRule};
use pb_text_lexer::input::Input;
use pb_text_lexer::kind::{Kind, same_kind};
use pb_text_terms::operator::{is_connective, quantifier, symbol};
use pb_text_terms::variable::variables;
use pb_text_tree::{Connective, Name, Quantifier};
use std::alloc::Global;

/// `!` and its operand.
#[cycle(formulas)]
#[inline(never)]
fn negation<'a>(
    input: &mut Input<'a>,
    alloc: Global,
    scope: Scope<'_, 'a>,
) -> Result<Formula, ReadingError>
    requires { spec.kind input.old ≡ Kind.Not }
    ensures { ReadsSome formula_form
        (reading.plain (names_of scope.entry.names.now) scope.entry.depth)
        input.old result input.new }
{
    let Scope { names, depth } = scope;
    let place = input.enter(depth)?.place;
    let depth = depth - 1;
    let operand = node(input, alloc, Scope { names, depth })?;
    let operand = Box::new(alloc, operand)?;
    Ok(Formula::Negation { place, operand })
}

/// A formula in brackets.
#[cycle(formulas)]
#[inline(never)]
fn bracketed<'a>(
    input: &mut Input<'a>,
    alloc: Global,
    scope: Scope<'_, 'a>,
) -> Result<Formula, ReadingError>
    requires { spec.kind input.old ≡ Kind.Open }
    ensures { ReadsSome formula_form
        (reading.plain (names_of scope.entry.names.now) scope.entry.depth)
        input.old result input.new }
{
    let Scope { names, depth } = scope;
    input.enter(depth)?;
    let depth = depth - 1;
    let inner = formula(input, alloc, Scope { names, depth })?;
    close(input).and(Ok(inner))
}

/// `[A]` or `<A>`, and its operand.
#[cycle(formulas)]
#[inline(never)]
fn modal<'a>(
    input: &mut Input<'a>,
    alloc: Global,
    scope: Scope<'_, 'a>,
    modality: Modality,
) -> Result<Formula, ReadingError>
    requires { spec.kind input.old ≡ reading.opening_kind modality }
    ensures { ReadsSome formula_form
        (reading.plain (names_of scope.entry.names.now) scope.entry.depth)
        input.old result input.new }
{
    let Scope { names, depth } = scope;
    let place = input.enter(depth)?.place;
    let depth = depth - 1;
    let steps = modal_steps(input, alloc, depth, modality)?;
    let operand = node(input, alloc, Scope { names, depth });
    let (within, operand) = both(steps, operand)?;
    Ok(modal_node(alloc, place, modality, within, operand)?)
}

/// What begins with no name: a negation, a formula in brackets, a modality, a constant or data.
#[cycle(formulas)]
#[tactic(auto, unfolding(crate::specs::Reading::plain))]
pub fn nameless<'a>(
    input: &mut Input<'a>,
    alloc: Global,
    scope: Scope<'_, 'a>,
) -> Result<Formula, ReadingError>
    requires { is_name_kind (spec.kind input.old) ≡ false }
    ensures { ReadsSome formula_form
        (reading.plain (names_of scope.entry.names.now) scope.entry.depth)
        input.old result input.new }
{
    match input.kind() {
        Kind::Not => negation(input, alloc, scope),
        Kind::Open => bracketed(input, alloc, scope),
        Kind::OpenSquare => modal(input, alloc, scope, Modality::Box),
        Kind::Less => modal(input, alloc, scope, Modality::Diamond),
        Kind::True => constant(input, true),
        Kind::False => constant(input, false),
        Kind::Val => value(input, alloc, scope),
        Kind::Number => data_atom(input, alloc, scope.depth),
        Kind::Minus => data_atom(input, alloc, scope.depth),
        _ => Err(ReadingError::Refused(input.refuse(ReadingRule::Unexpected))),
    }
}

/// The body of a fixpoint, in which its name is bound.
#[cycle(formulas)]
#[inline(never)]
fn body<'a>(
    input: &mut Input<'a>,
    alloc: Global,
    scope: Scope<'_, 'a>,
    name: &'a str,
) -> Result<Formula, ReadingError>
    ensures { ReadsSome formula_form
        (reading.formula (grammar.within
        (names_of scope.entry.names.now) name.now) scope.entry.depth) input.old result input.new }
{
    let depth = scope.depth;
    let names = extended(alloc, scope.names, name)?;
    let names = &names;
    formula(input, alloc, Scope { names, depth })
}

/// `mu` or `nu`, a name, a period and a body, in which the name is bound.
#[cycle(formulas)]
#[inline(never)]
#[tactic(auto, unfolding(crate::specs::Reading::fixpoint))]
fn fixpoint<'a>(
    input: &mut Input<'a>,
    alloc: Global,
    scope: Scope<'_, 'a>,
    sign: Sign,
) -> Result<Formula, ReadingError>
    requires { reading.sign_of (spec.kind input.old) ≡ Some sign }
    ensures { ReadsSome formula_form
        (reading.fixpoint (names_of scope.entry.names.now) scope.entry.depth)
        input.old result input.new }
{
    let Scope { names, depth } = scope;
    let place = input.enter(depth)?.place;
    let (name_place, text) = input.expect_name()?;
    input.expect(Kind::Period)?;
    let depth = depth - 1;
    let body = body(input, alloc, Scope { names, depth }, text)?;
    let body = Box::new(alloc, body)?;
    let variable = Name {
        place: name_place,
        text: text.to_owned(alloc)?,
    };
    Ok(Formula::Fixpoint {
        place,
        sign,
        variable,
        body,
    })
}

/// A quantifier, its variables, a period and a body.
#[cycle(formulas)]
#[inline(never)]
#[tactic(auto, unfolding(crate::specs::Reading::quantification))]
fn quantified<'a>(
    input: &mut Input<'a>,
    alloc: Global,
    scope: Scope<'_, 'a>,
    quantifier: Quantifier,
) -> Result<Formula, ReadingError>
    requires { terms.quantifier_of (spec.kind input.old) ≡ Some quantifier }
    ensures { ReadsSome formula_form
        (reading.quantification (names_of scope.entry.names.now) scope.entry.depth)
        input.old result input.new }
{
    let Scope { names, depth } = scope;
    let place = input.enter(depth)?.place;
    let variables = variables(input, alloc)?;
    input.expect(Kind::Period)?;
    let depth = depth - 1;
    let body = formula(input, alloc, Scope { names, depth })?;
    let body = Box::new(alloc, body)?;
    Ok(Formula::Quantified {
        place,
        quantifier,
        variables,
        body,
    })
}

/// An operand of a chain of the connective.
#[cycle(formulas)]
fn operand<'a>(
    input: &mut Input<'a>,
    alloc: Global,
    connective: Connective,
    scope: Scope<'_, 'a>,
) -> Result<Formula, ReadingError>
    ensures { ReadsSome formula_form
        (reading.operand connective (names_of scope.entry.names.now) scope.entry.depth)
        input.old result input.new }
{
    match connective {
        Connective::And => match sign(input.kind()) {
            Some(sign) => fixpoint(input, alloc, scope, sign),
            None => match quantifier(input.kind()) {
                Some(quantifier) => quantified(input, alloc, scope, quantifier),
                None => item(input, alloc, scope),
            },
        },
        Connective::Or => level(input, alloc, Connective::And, scope),
        Connective::Implies => level(input, alloc, Connective::Or, scope),
    }
}

/// The links of the chain of the connective that a first operand begins.
#[cycle(formulas)]
#[inline(never)]
fn links_behind<'a>(
    input: &mut Input<'a>,
    alloc: Global,
    connective: Connective,
    scope: Scope<'_, 'a>,
) -> Result<Vec<Link>, ReadingError>
    ensures reads { (s : State) (x : FormulaForm) → reading.operand connective
        (names_of scope.entry.names.now) scope.entry.depth s ≡ Ok (x, input.old)
        → length input.old.tokens < length s.tokens
        → Gives (λ v. chained (FormulaForm.connected connective) x (link_forms v.items))
        (reading.level connective (names_of scope.entry.names.now) scope.entry.depth s)
        result input.new }
    ensures fewer { OnOk result (length input.new.tokens ≤ length input.old.tokens) }
{
    let mut links = Vec::with_capacity(alloc, 1)?;
    'links: while same_kind(input.kind(), symbol(connective)) {
        let place = input.take_operator()?.place;
        let operand = operand(input, alloc, connective, scope)?;
        links.push(Link { place, operand })?;
    }
    Ok(links)
}

/// The chain of the connective that a first operand begins, or that operand alone.
#[cycle(formulas)]
#[inline(never)]
fn chain_behind<'a>(
    input: &mut Input<'a>,
    alloc: Global,
    connective: Connective,
    scope: Scope<'_, 'a>,
    first: Formula,
) -> Result<Formula, ReadingError>
    ensures { ReadsOn formula_form
        (reading.level connective (names_of scope.entry.names.now) scope.entry.depth)
        (HasRead (reading.operand connective (names_of scope.entry.names.now) scope.entry.depth)
        (formula_form first) input.old) input.old result input.new }
{
    if !same_kind(input.kind(), symbol(connective)) {
        return Ok(first);
    }
    let links = links_behind(input, alloc, connective, scope);
    let (start, links) = both(first, links)?;
    Ok(joined(alloc, connective, start, links)?)
}

/// A chain of the connective.
#[cycle(formulas)]
fn level<'a>(
    input: &mut Input<'a>,
    alloc: Global,
    connective: Connective,
    scope: Scope<'_, 'a>,
) -> Result<Formula, ReadingError>
    ensures { ReadsSome formula_form
        (reading.level connective (names_of scope.entry.names.now) scope.entry.depth)
        input.old result input.new }
{
    let first = operand(input, alloc, connective, scope);
    if !same_kind(input.kind(), symbol(connective)) {
        return first;
    }
    chain_behind(input, alloc, connective, scope, first?)
}

/// A formula, whose first part without connectives is read.
#[cycle(formulas)]
#[inline(never)]
fn connectives_behind<'a>(
    input: &mut Input<'a>,
    alloc: Global,
    scope: Scope<'_, 'a>,
    first: Formula,
) -> Result<Formula, ReadingError>
    ensures { ReadsOn formula_form
        (reading.formula (names_of scope.entry.names.now) scope.entry.depth)
        (HasRead (reading.primary (names_of scope.entry.names.now) scope.entry.depth)
        (formula_form first) input.old) input.old result input.new }
{
    let conjunction = chain_behind(input, alloc, Connective::And, scope, first)?;
    let disjunction = chain_behind(input, alloc, Connective::Or, scope, conjunction)?;
    chain_behind(input, alloc, Connective::Implies, scope, disjunction)
}

/// A formula. Most often no connective follows its first part at all.
#[cycle(formulas)]
pub fn formula<'a>(
    input: &mut Input<'a>,
    alloc: Global,
    scope: Scope<'_, 'a>,
) -> Result<Formula, ReadingError>
    ensures { ReadsSome formula_form
        (reading.formula (names_of scope.entry.names.now) scope.entry.depth)
        input.old result input.new }
{
    let first = operand(input, alloc, Connective::And, scope);
    if !is_connective(input.kind()) {
        return first;
    }
    connectives_behind(input, alloc, scope, first?)
}
