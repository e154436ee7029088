//! Unfolds counting: a sum with 1 for each tuple of values at which a condition is true.

ghost use Rattle.std.specs.Prelude.{◌≡◌, ◌<◌, suc, true, length, map, IfOk};
ghost use Rattle.pb_text_tree.specs.Form.{TermForm, argument_forms, term_form, variable_forms};
ghost use Rattle.pb_text_meaning.specs.Erase.{erased_variables};
ghost use Rattle.pb_text_meaning.specs.Syntax as syntax;
ghost use Rattle.pb_text_counting.specs.Counting.{counting};
ghost use Rattle.pb_protocol_folding.specs.View as tree;
ghost use Rattle.pb_protocol_unfolding.specs.PutIn as spec;
ghost use Rattle.pb_protocol_unfolder_terms.specs.Contexts.{folding_in};
ghost use Rattle.pb_protocol_unfolder_terms.specs.Counted.{AreCountedMet, IsCountedMet};
ghost use Rattle.pb_protocol_unfolder_terms.specs.Counted.{IsQuantifierIn, conditions_by, count_by};
ghost use Rattle.pb_protocol_unfolder_terms.specs.Counted.{one_by};
ghost use Rattle.pb_protocol_unfolder_terms.specs.Puts.{put};
ghost use Rattle.pb_protocol_unfolder_terms.specs.Tells.{IsTermMet, Tells};
ghost use Rattle.pb_protocol_unfolder_terms.specs.Unfolding.{IsUnfolded, Unfolds};
ghost use Rattle.pb_protocol_unfolder_terms.specs.Values.{tuple_of, written_term};

use crate::arithmetic::calculation;
use crate::array::{choice, choosing};
use crate::connectives::Quantified;
use crate::context::Context;
use crate::fault::{UnfoldError, UnfoldRule};
use crate::form::Form;
use crate::level::{Level, behind_one, operated, place_of, refused};
use crate::pair::paired;
use crate::scope::TermScope;
use crate::sorts::Variable;
use crate::unfold::unfold;
use crate::unfolded::Unfolded;
use crate::variables::variables_of;
use crate::written::{Written, written_tuples};
use pb_protocol_folding::Folding;
use pb_text_tree::{Argument, Arithmetic, Place, Term};
use std::alloc::AllocError;

/// What is counted: for how many values of the variables a condition is true.
#[derive(Clone, Copy)]
struct Counted<'a> {
    pub place: Place,
    pub variables: &'a [Variable<'a>],
    pub condition: &'a Term,
}

/// A number.
fn number(place: Place, value: u64, room: u32) -> Unfolded
    ensures term { (folding : syntax.Spec) (truth : _) →
        IsUnfolded folding truth room (syntax.Term.Number value) result }
    ensures room { result.room ≡ room }
{
    Unfolded {
        term: Term::Number { place, value },
        form: Form::Number(value),
        room,
    }
}

/// 1 where an unfolded condition is true, else 0.
fn one_if(folding: &Folding<'_>, place: Place, condition: Unfolded) -> Result<Unfolded, AllocError>
    ensures { (n : _) (t : syntax.Term) (truth : _) →
        IsUnfolded (tree.spec_of folding.now.sorts.now) true n t condition
        → IfOk result (IsUnfolded (tree.spec_of folding.now.sorts.now) truth (suc n)
        (spec.one_if t)) }
{
    let left = number(place, 1, condition.room);
    let right = number(place, 0, condition.room);
    let (condition, name) = paired(condition.term, choosing(folding.alloc, place))?;
    choice(folding, name, condition, left, right)
}

/// 1 where the condition is true for these values, else 0.
#[cycle(unfolding)]
fn unfold_one<'a>(
    context: &'a Context<'a>,
    scope: &'a TermScope<'a>,
    level: Level,
    counted: Counted<'a>,
    values: &'a [Written<'a>],
) -> Result<Unfolded, UnfoldError>
    ensures term { (truth : _) → Unfolds (folding_in context.now) truth level.room
        (one_by context.now level.definitions scope.now counted.entry
        (map written_term values.now)) result }
    ensures faults { Tells context.now result (IsCountedMet context.now level.depth
        level.definitions scope.now counted.entry (map written_term values.now)) }
{
    let place = counted.place;
    let inner = Level {
        truth: true,
        room: behind_one(level.room, place)?,
        ..level
    };
    let copied = TermScope::Values {
        variables: counted.variables,
        values,
        outer: &*scope,
    };
    let condition = unfold(&*context, &copied, inner, counted.condition)?;
    Ok(one_if(&context.folding(), place, condition)?)
}

/// The sum over all tuples of values, of which there is one.
#[cycle(unfolding)]
fn unfold_sum<'a>(
    context: &'a Context<'a>,
    scope: &'a TermScope<'a>,
    level: Level,
    counted: Counted<'a>,
    tuples: &'a [Vec<Written<'a>>],
) -> Result<Unfolded, UnfoldError>
    requires { 0 < length tuples.now }
    ensures term { Unfolds (folding_in context.now) level.truth level.room
        (spec.counted (conditions_by context.now level.definitions scope.now counted.entry
        (map tuple_of tuples.now))) result }
    ensures faults { Tells context.now result (AreCountedMet context.now level.depth
        level.definitions scope.now counted.entry (map tuple_of tuples.now)) }
{
    let place = counted.place;
    let mut sum = unfold_one(context, scope, level, counted, &tuples[0])?;
    for index in 1..tuples.len() {
        let room = behind_one(sum.room, place);
        let (before, room) = paired(sum, room)?;
        let one = unfold_one(
            context,
            scope,
            Level { room, ..level },
            counted,
            &tuples[index],
        );
        let (before, one) = paired(before, one)?;
        sum = calculation(&context.folding(), place, Arithmetic::Plus, before, one)?;
    }
    Ok(sum)
}

/// The quantifier that a term is, if it is one, without chains of one operand around it.
fn quantifier_in(term: &Term) -> Option<Quantified<'_>>
    ensures { IsQuantifierIn result (term_form term.now) }
{
    match operated(term) {
        Term::Quantified {
            place,
            quantifier,
            variables,
            body,
        } => Some(Quantified {
            place: *place,
            quantifier: *quantifier,
            variables,
            body,
        }),
        _ => None,
    }
}

/// For how many values of a quantifier's variables its body is true, written out.
#[cycle(unfolding)]
fn unfold_counted<'a>(
    context: &'a Context<'a>,
    scope: &'a TermScope<'a>,
    level: Level,
    quantified: Quantified<'a>,
) -> Result<Unfolded, UnfoldError>
    ensures term { Unfolds (folding_in context.now) level.truth level.room
        (count_by context.now level.definitions scope.now
        (erased_variables (variable_forms quantified.entry.variables.now))
        (tree.term_of quantified.entry.body.now)) result }
    ensures faults { Tells context.now result (IsTermMet context.now (suc level.depth)
        level.definitions scope.now (TermForm.quantified quantified.entry.quantifier
        quantified.entry.place (variable_forms quantified.entry.variables.now)
        (term_form quantified.entry.body.now))) }
{
    let variables = variables_of(context.alloc, quantified.variables)?;
    let place = quantified.place;
    let tuples = written_tuples(context.alloc, context.sorts(), &variables, place)?;
    if tuples.is_empty() {
        return Ok(number(place, 0, level.room));
    }
    let counted = Counted {
        place,
        variables: &variables,
        condition: quantified.body,
    };
    unfold_sum(&*context, &*scope, level, counted, &tuples)
}

/// Counting, of which these are the arguments: the quantifier whose body is counted. It takes a
/// level, as a quantifier in data does.
#[cycle(unfolding)]
pub(crate) fn unfold_count<'a>(
    context: &'a Context<'a>,
    scope: &'a TermScope<'a>,
    level: Level,
    place: Place,
    arguments: &'a [Argument],
) -> Result<Unfolded, UnfoldError>
    ensures term { Unfolds (folding_in context.now) level.truth level.room
        (put context.now level.definitions scope.now
        (syntax.Term.Apply counting (tree.terms_of arguments.now))) result }
    ensures faults { Tells context.now result (IsTermMet context.now (suc level.depth)
        level.definitions scope.now (TermForm.application
        (record { place = place; text = counting }) (argument_forms arguments.now))) }
{
    let Some(argument) = arguments.first() else {
        return Ok(number(place, 0, level.room));
    };
    let Some(depth) = level.depth.checked_sub(1) else {
        return Err(refused(UnfoldRule::Depth, place_of(&argument.term)));
    };
    match quantifier_in(&argument.term) {
        Some(quantified) => { unfold_counted(context, scope, Level { depth, ..level }, quantified) }
        None => Ok(number(place, 0, level.room)),
    }
}
