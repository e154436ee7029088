//! Reads data in formulas, and the variables of fixpoints.

ghost use Rattle.std.specs.Prelude.{◌≡◌, true, false, Ok, MatchResult};
ghost use Rattle.pb_text_tree.specs.Form.{term_form, argument_forms, instance_form, named};
ghost use Rattle.pb_text_lexer.specs.Kinds.{is_last};
ghost use Rattle.pb_text_lexer.specs.Tokens.{tok, token_at};
ghost use Rattle.pb_text_lexer.specs.Steps as spec;
ghost use Rattle.pb_text_terms.specs.Readers.{ReadsOn, ReadsSome};
ghost use Rattle.pb_text_terms.specs.Grammar as terms;
ghost use Rattle.pb_text_terms.specs.Reading as terms_reading;
ghost use Rattle.pb_protocol_tree.specs.Form.{FormulaForm, formula_form};
ghost use Rattle.pb_model_text.specs.Grammar as grammar;
ghost use Rattle.pb_model_text.specs.Reading as reading;
ghost use Rattle.pb_model_text.specs.Reading.{names_of};

use crate::name_ref::NameRef;
use crate::scope::{Scope, is_bound};
use pb_base::both;
use pb_protocol_tree::Formula;
use pb_text_lexer::fault::{ReadingError, ReadingRule, Refusal};
use pb_text_lexer::input::Input;
use pb_text_lexer::kind::{Kind, same_kind};
use pb_text_lexer::token::Token;
use pb_text_terms::node::applied;
use pb_text_terms::operator::{Operators, is_among, is_equality, is_operator, is_order};
use pb_text_terms::term::{argument_list, equated, operators_behind, unary};
use pb_text_tree::{Instance, Name, Place, Term};
use std::alloc::Global;

/// Whether a token would go on with data: a bracket, or an operator of arithmetic or a comparison.
pub fn goes_on(kind: Kind) -> bool
    ensures { result ≡ reading.goes_on kind }
{
    same_kind(kind, Kind::Open)
        || (is_among(Operators::Times, kind) || is_among(Operators::Division, kind))
        || is_among(Operators::Additive, kind)
        || is_order(kind)
        || is_equality(kind)
}

/// Refuses the next token as `ReadingRule::Unexpected` if it would go on with data.
pub fn unless_going_on(input: &Input<'_>) -> Result<(), Refusal>
    ensures { MatchResult result (λ u. reading.goes_on (spec.kind input.now) ≡ false)
        (λ e. (reading.goes_on (spec.kind input.now) ≡ true)
        × (e ≡ spec.refusal ReadingRule.Unexpected input.now.tokens)) }
{
    if goes_on(input.kind()) {
        Err(input.refuse(ReadingRule::Unexpected))
    } else {
        Ok(())
    }
}

/// `)`, behind which data doesn't go on.
#[inline(never)]
pub fn close<'a>(input: &mut Input<'a>) -> Result<Token<'a>, ReadingError>
    ensures { ReadsSome tok (spec.unless_next reading.goes_on (spec.expect Kind.Close))
        input.old result input.new }
{
    let bracket = input.expect(Kind::Close)?;
    unless_going_on(input)?;
    Ok(bracket)
}

/// The refusal of a name that stands at this place.
pub fn unexpected_name(place: Place) -> Refusal
    ensures { result ≡ record { rule = ReadingRule.Unexpected; kind = Kind.Name; place = place } }
{
    Refusal {
        rule: ReadingRule::Unexpected,
        kind: Kind::Name,
        place,
    }
}

/// An operand of data, in which so many levels may open.
#[tactic(auto, unfolding(crate::specs::Reading::data_operand))]
pub fn data_operand(input: &mut Input<'_>, alloc: Global, depth: u32) -> Result<Term, ReadingError>
    ensures { ReadsSome term_form (reading.data_operand depth) input.old result input.new }
{
    unary(input, alloc, depth)
}

/// A name that is read, alone or with arguments, in which so many levels may open.
pub fn instance_behind(
    input: &mut Input<'_>,
    alloc: Global,
    depth: u32,
    name: Name,
) -> Result<Instance, ReadingError>
    ensures { ReadsOn instance_form (terms_reading.instance depth)
        (λ s. terms_reading.name s ≡ Ok (named name, input.old)) input.old result input.new }
{
    if !same_kind(input.kind(), Kind::Open) {
        let arguments = Vec::new(alloc);
        return Ok(Instance { name, arguments });
    }
    input.enter(depth)?;
    let arguments = argument_list(input, alloc, depth - 1)?;
    input.expect(Kind::Close)?;
    if same_kind(input.kind(), Kind::Open) {
        return Err(ReadingError::Refused(input.refuse(ReadingRule::Unexpected)));
    }
    Ok(Instance { name, arguments })
}

/// A name with its arguments, behind which no operator stands: the variable of a fixpoint around
/// it, or data.
fn named_atom(names: &[&str], place: Place, instance: Instance) -> Formula
    ensures { formula_form result ≡ grammar.atom_of (names_of names.now) place
        (terms.applied (named instance.name) (argument_forms instance.arguments.items)) }
{
    if instance.arguments.is_empty() && is_bound(names, instance.name.text.as_bytes()) {
        return Formula::Variable(instance.name);
    }
    let term = applied(instance);
    Formula::Data { place, term }
}

/// What begins with a name that is read: the variable of a fixpoint, or data.
#[inline(never)]
#[tactic(auto, unfolding(crate::specs::Reading::data_operand))]
pub fn name_atom<'a>(
    input: &mut Input<'a>,
    alloc: Global,
    scope: Scope<'_, 'a>,
    name: NameRef<'a>,
) -> Result<Formula, ReadingError>
    ensures { ReadsOn formula_form (reading.atom
        (grammar.atom_of (names_of scope.entry.names.now)) (reading.data_operand scope.entry.depth))
        (λ s. (spec.kind s ≡ Kind.Name) × (spec.expect Kind.Name s
        ≡ Ok (token_at name.entry.place Kind.Name name.entry.text.now, input.old)))
        input.old result input.new }
{
    let place = name.place;
    let text = name.text.to_owned(alloc)?;
    let instance = instance_behind(input, alloc, scope.depth, Name { place, text })?;
    if !is_operator(input.kind()) {
        return Ok(named_atom(scope.names, place, instance));
    }
    let term = operators_behind(input, alloc, scope.depth, applied(instance))?;
    Ok(Formula::Data { place, term })
}

/// Data that begins with a number or with `-`.
#[inline(never)]
#[tactic(auto, unfolding(crate::specs::Reading::data_operand))]
pub fn data_atom(input: &mut Input<'_>, alloc: Global, depth: u32) -> Result<Formula, ReadingError>
    ensures { ReadsSome formula_form (reading.atom FormulaForm.«data» (reading.data_operand depth))
        input.old result input.new }
{
    let place = input.place();
    let term = equated(input, alloc, depth)?;
    Ok(Formula::Data { place, term })
}

/// `val` and its operand.
#[inline(never)]
#[tactic(auto, unfolding(crate::specs::Reading::plain))]
pub fn value<'a>(
    input: &mut Input<'a>,
    alloc: Global,
    scope: Scope<'_, 'a>,
) -> Result<Formula, ReadingError>
    requires { spec.kind input.old ≡ Kind.Val }
    ensures { ReadsSome formula_form
        (reading.plain (names_of scope.entry.names.now) scope.entry.depth)
        input.old result input.new }
{
    let place = input.take().place;
    let term = data_operand(input, alloc, scope.depth)?;
    let (term, _) = both(term, unless_going_on(input))?;
    Ok(Formula::Data { place, term })
}

/// `true` or `false`.
#[inline(never)]
pub fn constant(input: &mut Input<'_>, value: bool) -> Result<Formula, ReadingError>
    requires { is_last (spec.kind input.old) ≡ false }
    ensures { ReadsSome formula_form (reading.truth value) input.old result input.new }
{
    let place = input.take().place;
    unless_going_on(input)?;
    Ok(Formula::Constant { place, value })
}
