//! Unfolds reads of arrays.

ghost use Rattle.std.specs.Prelude.{◌≡◌, ◌≤◌, ◌<◌, false, true, map};
ghost use Rattle.pb_text_meaning.specs.Syntax as syntax;
ghost use Rattle.pb_protocol_folding.specs.Folding.{folded};
ghost use Rattle.pb_protocol_folding.specs.View as tree;
ghost use Rattle.pb_protocol_unfolding.specs.PutIn as spec;
ghost use Rattle.pb_protocol_unfolder_terms.specs.Contexts.{folding_in};
ghost use Rattle.pb_protocol_unfolder_terms.specs.Puts.{element_by, read_by};
ghost use Rattle.pb_protocol_unfolder_terms.specs.Tells.{AreChoicesMet, IsArrayMet, Tells};
ghost use Rattle.pb_protocol_unfolder_terms.specs.Unfolding.{Unfolds, operator_count};
ghost use Rattle.pb_protocol_unfolder_terms.specs.Values.{written_term};

use crate::array::{Array, Choices, choice, choosing, chosen, equality, written_as};
use crate::bounds::is_within;
use crate::context::Context;
use crate::element::element;
use crate::fault::{UnfoldError, UnfoldRule};
use crate::level::{Level, behind_all, of_index, refused};
use crate::names::{element_term, nothing};
use crate::pair::paired;
use crate::scope::TermScope;
use crate::unfold::unfold;
use crate::unfolded::Unfolded;
use crate::written::{Written, written_values};
use pb_base::MAX_OPERATORS;
use pb_protocol_folding::truth_value;

/// An element of an array at one more value.
#[cycle(unfolding)]
fn unfold_element<'a>(
    context: &'a Context<'a>,
    scope: &'a TermScope<'a>,
    level: Level,
    others: Array<'a>,
    value: Written<'a>,
) -> Result<Unfolded, UnfoldError>
    ensures term { (truth : _) → Unfolds (folding_in context.now) truth level.room
        (element_by context.now level.definitions scope.now others.entry
        (written_term value.entry)) result }
    ensures faults { Tells context.now result (IsArrayMet context.now level.depth
        level.definitions scope.now others.entry.name.now.place others.entry.arguments.now
        others.entry.indices.now) }
{
    let name = element(context.alloc, others.name, value)?;
    let array = Array {
        name: &name,
        ..others
    };
    unfold_read(&*context, &*scope, level, array)
}

/// The element of an array at a value that its index is known to have: what is chosen where a
/// condition holds.
#[cycle(unfolding)]
fn unfold_known<'a>(
    context: &'a Context<'a>,
    scope: &'a TermScope<'a>,
    level: Level,
    choices: Choices<'a>,
    value: Written<'a>,
) -> Result<Unfolded, UnfoldError>
    ensures term { (c y : syntax.Term) (truth : _) →
        folded (folding_in context.now) true c ≡ syntax.Term.Truth true
        → choices.entry.operators < operator_count c
        → Unfolds (folding_in context.now) truth level.room (spec.choice c
        (element_by context.now level.definitions scope.now choices.entry.others
        (written_term value.entry)) y) result }
    ensures faults { Tells context.now result (IsArrayMet context.now level.depth
        level.definitions scope.now choices.entry.others.name.now.place
        choices.entry.others.arguments.now choices.entry.others.indices.now) }
{
    let room = behind_all(
        level.room,
        choices.operators_taken(),
        choices.others.name.place,
    )?;
    let level = Level { room, ..level };
    Ok(chosen(unfold_element(context, scope, level, choices.others, value)?))
}

/// The element of an array that an index means which isn't written, or a part of the array.
#[cycle(unfolding)]
fn unfold_choices<'a>(
    context: &'a Context<'a>,
    scope: &'a TermScope<'a>,
    level: Level,
    choices: Choices<'a>,
) -> Result<Unfolded, UnfoldError>
    ensures term { (t : syntax.Term) (truth : _) →
        tree.term_of choices.entry.index.now ≡ folded (folding_in context.now) false t
        → choices.entry.operators ≤ operator_count t
        → Unfolds (folding_in context.now) truth level.room (spec.choices
        (element_by context.now level.definitions scope.now choices.entry.others) t
        (map written_term choices.entry.values.now)) result }
    ensures faults { Tells context.now result (AreChoicesMet context.now level.depth
        level.definitions scope.now choices.entry) }
{
    let place = choices.others.name.place;
    let Some(value) = choices.values.first() else {
        return Ok(nothing(place, level.room));
    };
    let Some(depth) = level.depth.checked_sub(1) else {
        return Err(refused(UnfoldRule::Depth, place));
    };
    let level = Level { depth, ..level };
    let values = &choices.values[1..];
    if values.is_empty() {
        return unfold_known(context, scope, level, choices, *value);
    }
    let further = Choices { values, ..choices };
    let condition = equality(&context.folding(), choices.index, *value, place)?;
    match truth_value(&condition) {
        Some(true) => {
            drop(condition);
            unfold_known(context, scope, level, choices, *value)
        }
        Some(false) => {
            drop(condition);
            Ok(chosen(unfold_choices(context, scope, level, further)?))
        }
        None => {
            let room = behind_all(level.room, choices.operators, place);
            let (condition, room) = paired(condition, room)?;
            let (condition, room) = paired(condition, behind_all(room, 2, place))?;
            let inner = Level { room, ..level };
            let left = unfold_element(context, scope, inner, choices.others, *value);
            let (condition, left) = paired(condition, left)?;
            let room = left.room;
            let further = Choices {
                compared: true,
                ..further
            };
            let right = unfold_choices(context, scope, Level { room, ..level }, further);
            let ((condition, left), right) = paired((condition, left), right)?;
            let Ok(name) = choosing(context.alloc, place) else {
                drop((condition, left, right));
                return Err(UnfoldError::Memory);
            };
            Ok(choice(&context.folding(), name, condition, left, right)?)
        }
    }
}

/// An element of an array, or of a part of one: at once where an index is written, else by a
/// choice.
#[cycle(unfolding)]
pub(crate) fn unfold_read<'a>(
    context: &'a Context<'a>,
    scope: &'a TermScope<'a>,
    level: Level,
    array: Array<'a>,
) -> Result<Unfolded, UnfoldError>
    ensures term { (truth : _) → Unfolds (folding_in context.now) truth level.room
        (read_by context.now level.definitions scope.now array.entry) result }
    ensures faults { Tells context.now result (IsArrayMet context.now level.depth
        level.definitions scope.now array.entry.name.now.place array.entry.arguments.now
        array.entry.indices.now) }
{
    let place = array.name.place;
    let Some(index) = array.indices.first() else {
        return Ok(element_term(context.alloc, array.name, level.room)?);
    };
    let Some(argument) = array.arguments.first() else {
        return Ok(nothing(place, level.room));
    };
    let Some(depth) = level.depth.checked_sub(1) else {
        return Err(refused(UnfoldRule::Depth, place));
    };
    let values = written_values(context.alloc, context.sorts(), index.sort, place)?;
    let inner = Level {
        truth: false,
        room: MAX_OPERATORS as u32,
        ..level
    };
    let unfolded = match unfold(context, scope, inner, &argument.term) {
        Ok(unfolded) => unfolded,
        Err(error) => return Err(of_index(error)),
    };
    if !is_within(context, &unfolded.term, index.sort) {
        drop(unfolded);
        return Err(refused(UnfoldRule::Index, argument.place));
    }
    let level = Level { depth, ..level };
    if let Some(value) = written_as(&unfolded, &values) {
        drop(unfolded);
        return unfold_element(context, scope, level, array.others(), value);
    }
    let choices = Choices {
        others: array.others(),
        index: &unfolded.term,
        operators: (MAX_OPERATORS as u32).saturating_sub(unfolded.room),
        compared: false,
        values: &values,
    };
    let read = unfold_choices(&*context, &*scope, level, choices);
    drop(unfolded);
    read
}
