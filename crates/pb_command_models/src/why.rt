//! Why the properties of a model hold or don't: the verdicts, with the steps of their evidence.
ghost use Rattle.std.specs.Prelude.{◌≡◌, Err, IsSome, option_copied};
ghost use Rattle.pb_command_faults.specs.declared.solve_fault.SolveFault.TheVariants.{NoProperty};
ghost use Rattle.pb_model_properties.specs.Words.{IsToldModelOf};
ghost use Rattle.pb_command_models.specs.Why.{DeliversWhy, IsToldFaithfully, TellsAll, TellsAsked};

use crate::explained_finding::Asked;
use crate::laws::told_calls_are_steps;
use crate::negation::InputWithNegation;
use crate::options::WhyOptions;
use crate::told::told_at;
use pb_base::OrMemory;
use pb_command_faults::{SolveError, SolveFault};
use pb_command_modules::deliver;
use pb_command_solver::{Context, Progress};
use pb_command_texts::ShortInput;
use pb_model_properties::{SolvedModel, place_of, read_protocol};
use pb_sorts::Sink;
use std::thread::Threads;

// The reports on all properties.
fn all_told<R: Threads + Sync, G: Progress + Sync>(
    context: &Context<'_, R, G>,
    input: ShortInput<'_>,
    solved: &SolvedModel,
    options: WhyOptions,
) -> Result<String, OrMemory<SolveFault>>
    requires { IsToldModelOf input.bytes.now solved.now }
    ensures { TellsAll options.lines input.entry.bytes.now solved.now result }
{
    let mut asked_input = InputWithNegation::new(input);
    let mut lines = String::new(context.alloc);
    for place in 0..solved.typed.model.properties.len() {
        let asked = Asked {
            place,
            always: false,
            options,
        };
        let told = told_at(context, &mut asked_input, solved, asked)?;
        lines.push_str(told.as_str())?;
    }
    Ok(lines)
}

// The report on the property of a name, or on all where none is named.
fn asked_told<R: Threads + Sync, G: Progress + Sync>(
    context: &Context<'_, R, G>,
    input: ShortInput<'_>,
    solved: &SolvedModel,
    property: Option<&str>,
    options: WhyOptions,
) -> Result<String, OrMemory<SolveFault>>
    requires { IsToldModelOf input.bytes.now solved.now }
    ensures { TellsAsked options.lines property.entry input.entry.bytes.now solved.now result }
{
    match property {
        Some(name) => {
            let Some(place) = place_of(&solved.typed.model.properties, Some(name)) else {
                return Err(SolveFault::NoProperty.into());
            };
            let asked = Asked {
                place,
                always: true,
                options,
            };
            told_at(context, &mut InputWithNegation::new(input), solved, asked)
        }
        None => all_told(context, input, solved, options),
    }
}

/// Reports why the properties of a model hold or don't, in the model's own words. Without a name it
/// writes for each property, in order, the line of the verdict on it, as `check_text` does,
/// followed where that isn't true by lines of evidence, with the steps that lead from one to
/// another. With a name it does so for that property alone, whatever the verdict is.
///
/// No line below a verdict that is false rests on a call outside the ranges: the evidence is that
/// of the property's text where none of its lines does, and else evidence that the negation is
/// satisfied, which has the same names at the same places. Where the verdict is unknown, the
/// evidence is that the property isn't satisfied within the ranges.
///
/// Where lines of instances are asked for, these show the verdict in place of words: each names an
/// instance and those that it rests on, as with `explain_text`, and the steps that lead to them.
///
/// Each property's text is explained as `explain_text` does with a text. Where a line of its
/// evidence rests on a call outside the ranges, the text of the negation is explained too; else,
/// where the protocol doesn't satisfy the property, the verdict is found as `check_text` finds it.
/// A call of such a text, which leads from one line to another, is a move of the model:
/// `calls_are_moves` of `pb_model_runs` says so. By its `every_step_is_called` no step can be taken
/// where the text of every step makes no call.
///
/// # Errors
/// `NoProperty` comes exactly where the model has no property of the name, and `Property` where
/// something of a property that is asked for is too large, or its negation is refused, which the
/// verdict or its evidence needs. Others are as with `check_text`, of the property of the name.
pub fn why_text<R: Threads + Sync, G: Progress + Sync, S: Sink>(
    context: &Context<'_, R, G>,
    input: ShortInput<'_>,
    property: Option<&str>,
    options: WhyOptions,
    writer: &mut S,
) -> Result<(), SolveError>
    ensures told { DeliversWhy options.lines (option_copied property.entry)
        input.entry.bytes.now result S.Sink writer.old writer.new }
    // The calls that the lines tell are steps of the model and moves of the protocol, and each
    // state is told as the one of the protocol that it says.
    ensures faithful { IsToldFaithfully input.entry.bytes.now }
    ensures named { result ≡ Err (SolveError.Refused NoProperty) → IsSome property.entry }
{
    told_calls_are_steps();
    let solved = read_protocol(context.alloc, input.bytes)?;
    let lines = asked_told(context, input, &solved, property, options)?;
    deliver(lines.as_bytes(), writer)
}
