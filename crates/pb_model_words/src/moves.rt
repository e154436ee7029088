//! A move: the step by which a state goes over to another, and what changes. Where a place alone is
//! known, the step's mark.

ghost use Rattle.std.specs.Prelude.{◌≡◌, ◌++◌, OnOk, string_bytes, map, is_some};
ghost use Rattle.pb_model_words.specs.Words.{step_at};
ghost use Rattle.pb_model_words.specs.Words.{in_brackets, mark_text, move_text, named_step};
ghost use Rattle.pb_model_words.specs.Words.{stands_at, step_mark, step_text, value_texts};
ghost use Rattle.pb_model_words.specs.View.{declarations, step_said, told_step_said, variable_said};
ghost use Rattle.pb_model_words.specs.View.{vocabulary_of};
ghost use Rattle.std.specs.List.{find};

use crate::states::push_changes;
use crate::values::{Values, push_mark};
use crate::variables::{Variable, variables_of};
use crate::vocabulary::{ToldStep, Vocabulary};
use pb_text_tree::Place;
use std::alloc::{AllocError, Global};

/// A move from one state to another: the place of the step's name, and the values of the step's own
/// variables. Where no step's name stands at the place, the state stays.
#[derive(Clone, Copy)]
pub struct Move<'a> {
    pub place: Place,
    pub own: &'a [i64],
    pub before: &'a [i64],
    pub after: &'a [i64],
}

fn stands_at(place: Place, step: &ToldStep<'_>) -> bool
    ensures { result ≡ stands_at place (told_step_said step.now) }
{
    let own = step.place;
    own.line == place.line && own.column == place.column
}

/// The first step whose name stands at the place.
fn step_at<'a>(steps: &'a [ToldStep<'a>], place: Place) -> Option<&'a ToldStep<'a>>
    ensures { step_said result ≡ find (stands_at place) (map told_step_said steps.now) }
{
    for step in steps {
        if stands_at(place, step) {
            return Some(step);
        }
    }
    None
}

impl Values<'_> {
    /// Values of variables in brackets, with commas between; nothing where there are none.
    pub fn push_in_brackets(
        &self,
        text: &mut String,
        variables: &[Variable<'_>],
        values: &[i64],
    ) -> Result<(), AllocError>
        ensures { OnOk result (string_bytes text.new ≡ string_bytes text.old
            ++ in_brackets (value_texts (declarations self.now.sorts.now)
            (map variable_said variables.now) values.now)) }
    {
        let count = variables.len().min(values.len());
        if count == 0 {
            return Ok(());
        }
        let mut is_first = true;
        for k in 0..count {
            push_mark(text, is_first, "(", ",")?;
            let sort = variables[k].sort;
            self.push(text, sort.text.as_str(), values[k])?;
            is_first = false;
        }
        text.push_str(")")
    }

    /// The step's name with values of its own variables in brackets.
    fn push_named_step(
        &self,
        alloc: Global,
        text: &mut String,
        step: &ToldStep<'_>,
        own: &[i64],
    ) -> Result<(), AllocError>
        ensures { OnOk result (string_bytes text.new ≡ string_bytes text.old
            ++ named_step (declarations self.now.sorts.now) (told_step_said step.now) own.now) }
    {
        text.push_str(step.name)?;
        let variables = variables_of(alloc, step.variables)?;
        self.push_in_brackets(text, &variables, own)
    }

    /// The step's name with values of its own variables, or that the state stays.
    fn push_step(
        &self,
        alloc: Global,
        text: &mut String,
        step: Option<&ToldStep<'_>>,
        own: &[i64],
    ) -> Result<(), AllocError>
        ensures { OnOk result (string_bytes text.new ≡ string_bytes text.old
            ++ step_text (declarations self.now.sorts.now) (step_said step.entry) own.now) }
    {
        match step {
            None => text.push_str("stays"),
            Some(step) => self.push_named_step(alloc, text, step, own),
        }
    }

    /// The step's name with values of its own variables behind a sign, where there is a step.
    fn push_step_mark(
        &self,
        alloc: Global,
        text: &mut String,
        step: Option<&ToldStep<'_>>,
        own: &[i64],
    ) -> Result<(), AllocError>
        ensures { OnOk result (string_bytes text.new ≡ string_bytes text.old
            ++ step_mark (declarations self.now.sorts.now) (step_said step.entry) own.now) }
    {
        match step {
            None => Ok(()),
            Some(step) => {
                text.push_str("@")?;
                self.push_named_step(alloc, text, step, own)
            }
        }
    }
}

/// Whether the name of a step is at a place.
pub fn has_step(vocabulary: &Vocabulary<'_>, place: Place) -> bool
    ensures { result ≡ is_some (step_at (vocabulary_of vocabulary.now) place) }
{
    step_at(&vocabulary.steps, place).is_some()
}

/// Puts a move behind a text: the step with its own values, or `stays`, and what changes:
/// `put(1,green): x := 1`.
///
/// # Errors
/// Memory was refused.
pub fn push_move(
    alloc: Global,
    text: &mut String,
    vocabulary: &Vocabulary<'_>,
    made: &Move<'_>,
) -> Result<(), AllocError>
    ensures { OnOk result (string_bytes text.new ≡ string_bytes text.old
        ++ move_text (vocabulary_of vocabulary.now) made.now.place made.now.own.now
        made.now.before.now made.now.after.now) }
{
    let sorts = vocabulary.sorts;
    let step = step_at(&vocabulary.steps, made.place);
    Values { sorts }.push_step(alloc, text, step, made.own)?;
    push_changes(alloc, text, vocabulary, made.before, made.after)
}

/// Puts the step behind a text whose name stands at a place, with values of its own variables:
/// `@put(1,green)`. Where no step's name stands there, it puts nothing.
///
/// # Errors
/// Memory was refused.
pub fn push_step_mark(
    alloc: Global,
    text: &mut String,
    vocabulary: &Vocabulary<'_>,
    place: Place,
    own: &[i64],
) -> Result<(), AllocError>
    ensures { OnOk result (string_bytes text.new ≡ string_bytes text.old
        ++ mark_text (vocabulary_of vocabulary.now) place own.now) }
{
    let sorts = vocabulary.sorts;
    let step = step_at(&vocabulary.steps, place);
    Values { sorts }.push_step_mark(alloc, text, step, own)
}
