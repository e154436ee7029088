//! Reads operands of formulas, with the words that stand before them or between two.

ghost use Rattle.std.specs.Prelude.{◌≡◌};
ghost use Rattle.pb_text_lexer.specs.Steps as spec;
ghost use Rattle.pb_text_terms.specs.Readers.{MayRead, ReadsSome};
ghost use Rattle.pb_text_formulas.specs.Reading.{is_name_kind};
ghost use Rattle.pb_protocol_tree.specs.Form.{formula_form};
ghost use Rattle.pb_model_text.specs.Grammar as grammar;
ghost use Rattle.pb_model_text.specs.Reading as reading;
ghost use Rattle.pb_model_text.specs.Reading.{names_of};

use crate::atom::{name_atom, unexpected_name};
use crate::fixpoint::extended;
use crate::formula::nameless;
use crate::name_ref::NameRef;
use crate::pattern::{constant_word, fair, infixed, prefixed};
use crate::processes::process_sets;
use crate::scope::{Scope, leading_within};
use crate::word::{Leading, infix_word, is_word};
use pb_base::both;
use pb_protocol_tree::Formula;
use pb_text_lexer::fault::{ReadingError, ReadingRule};
use pb_text_lexer::input::Input;
use pb_text_lexer::kind::{Kind, same_kind};
use pb_text_tree::Place;
use std::alloc::Global;

/// What begins with a name that is no word.
#[cycle(formulas)]
#[inline(never)]
fn wordless<'a>(
    input: &mut Input<'a>,
    alloc: Global,
    scope: Scope<'_, 'a>,
) -> Result<Formula, ReadingError>
    ensures { ReadsSome formula_form
        (reading.wordless (reading.plain (names_of scope.entry.names.now) scope.entry.depth))
        input.old result input.new }
{
    if !same_kind(input.kind(), Kind::Name) {
        return nameless(input, alloc, scope);
    }
    let (place, text) = input.expect_name()?;
    if is_word(text.as_bytes()) {
        return Err(ReadingError::Refused(unexpected_name(place)));
    }
    name_atom(input, alloc, scope, NameRef { place, text })
}

/// The operand of `fair`, which is within it.
#[cycle(formulas)]
#[inline(never)]
fn fair_operand<'a>(
    input: &mut Input<'a>,
    alloc: Global,
    scope: Scope<'_, 'a>,
) -> Result<Formula, ReadingError>
    ensures { ReadsSome formula_form
        (reading.wordless (reading.plain (grammar.within_fair
        (names_of scope.entry.names.now)) scope.entry.depth)) input.old result input.new }
{
    let depth = scope.depth;
    let names = extended(alloc, scope.names, "fair")?;
    let names = &names;
    wordless(input, alloc, Scope { names, depth })
}

/// What `fair` stands for, which is read, with what stands behind it.
#[cycle(formulas)]
#[inline(never)]
fn behind_fair<'a>(
    input: &mut Input<'a>,
    alloc: Global,
    scope: Scope<'_, 'a>,
    place: Place,
) -> Result<Formula, ReadingError>
    ensures { ReadsSome formula_form
        (reading.behind_fair (names_of scope.entry.names.now) scope.entry.depth place)
        input.old result input.new }
{
    let Scope { names, depth } = scope;
    let sets = process_sets(input, alloc, depth)?;
    let depth = depth - 1;
    let operand = fair_operand(input, alloc, Scope { names, depth });
    let (processes, operand) = both(sets, operand)?;
    Ok(fair(alloc, place, processes, operand)?)
}

/// What a word stands for with which an operand begins, and which is read.
#[cycle(formulas)]
#[inline(never)]
fn led<'a>(
    input: &mut Input<'a>,
    alloc: Global,
    scope: Scope<'_, 'a>,
    word: Leading,
    place: Place,
) -> Result<Formula, ReadingError>
    ensures { MayRead formula_form (reading.led_by
        (reading.behind_fair (names_of scope.entry.names.now) scope.entry.depth)
        (reading.wordless (reading.plain (names_of scope.entry.names.now) scope.entry.depth))
        word place) input.old result input.new }
{
    match word {
        Leading::NoDeadlock => constant_word(input, alloc, place),
        Leading::Fair => behind_fair(input, alloc, scope, place),
        Leading::Before(prefix) => {
            let operand = wordless(input, alloc, scope)?;
            Ok(prefixed(alloc, prefix, place, operand)?)
        }
    }
}

/// An operand of a negation or a modality: what begins with a name is a word, data or a fixpoint's
/// variable.
#[cycle(formulas)]
pub fn node<'a>(
    input: &mut Input<'a>,
    alloc: Global,
    scope: Scope<'_, 'a>,
) -> Result<Formula, ReadingError>
    ensures { ReadsSome formula_form
        (reading.node (names_of scope.entry.names.now) scope.entry.depth)
        input.old result input.new }
{
    if !same_kind(input.kind(), Kind::Name) {
        return nameless(input, alloc, scope);
    }
    let (place, text) = input.expect_name()?;
    if !is_word(text.as_bytes()) {
        return name_atom(input, alloc, scope, NameRef { place, text });
    }
    match leading_within(scope.names, text.as_bytes()) {
        Some(word) => led(input, alloc, scope, word, place),
        None => Err(ReadingError::Refused(unexpected_name(place))),
    }
}

/// What a word makes of an operand before it and of the one behind it, behind which no other word
/// stands.
#[cycle(formulas)]
#[inline(never)]
fn joined_behind<'a>(
    input: &mut Input<'a>,
    alloc: Global,
    scope: Scope<'_, 'a>,
    first: Formula,
) -> Result<Formula, ReadingError>
    requires { spec.kind input.old ≡ Kind.Name }
    ensures { ReadsSome formula_form
        (spec.unless_next is_name_kind (reading.joined_by (reading.node
        (names_of scope.entry.names.now) scope.entry.depth) (formula_form first)))
        input.old result input.new }
{
    let named = input.expect_name();
    let (first, (place, text)) = both(first, named)?;
    let Some(word) = infix_word(text.as_bytes()) else {
        drop(first);
        return Err(ReadingError::Refused(unexpected_name(place)));
    };
    let second = node(input, alloc, scope);
    let (first, second) = both(first, second)?;
    if same_kind(input.kind(), Kind::Name) {
        drop(first);
        drop(second);
        return Err(ReadingError::Refused(input.refuse(ReadingRule::Unexpected)));
    }
    Ok(infixed(alloc, word, place, first, second)?)
}

/// An operand of a connective that is no binder: a node, or two with a word between them.
#[cycle(formulas)]
pub fn item<'a>(
    input: &mut Input<'a>,
    alloc: Global,
    scope: Scope<'_, 'a>,
) -> Result<Formula, ReadingError>
    ensures { ReadsSome formula_form
        (reading.item (names_of scope.entry.names.now) scope.entry.depth)
        input.old result input.new }
{
    let first = node(input, alloc, scope)?;
    if !same_kind(input.kind(), Kind::Name) {
        return Ok(first);
    }
    joined_behind(input, alloc, scope, first)
}
