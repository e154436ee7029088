//! From texts to answers.
ghost use Rattle.std.specs.Prelude.{ℕ, List};
ghost use Rattle.pb_text_tree.specs.Form.{spec_form};
ghost use Rattle.pb_sorts.specs.declared.counting.Counting.{Counting};
ghost use Rattle.pb_command_texts.specs.Answers.{IsAnswer, IsReadText, IsWellTypedBy};
ghost use Rattle.pb_command_modules.specs.Delivery.{DeliversOrRefuses, ReportsOrRefuses};
ghost use Rattle.pb_command_texts.specs.Explained.{IsExplained};
ghost use Rattle.pb_command_texts.specs.Refusals.{IsRefused};
ghost use Rattle.pb_command_modules.specs.Writes.{WritesCertificate, WritesGame, WritesSolution};
ghost use Rattle.pb_command_texts.specs.Writes.{DeliversTextEvidence, WritesOfModule};

use crate::compile::{typed, verified_text};
use crate::explained::{ExplainedText, explained_typed};
use crate::options::ExplainOptions;
use crate::text_input::TextInput;
use pb_command_faults::SolveError;
use pb_command_modules::{
    write_certificate, write_evidence, write_game, write_report, write_solution,
};
use pb_command_solver::{Context, Progress, SolveOptions, Workers};
use pb_evidence_places::{call_places_of, named_instances_are_called};
use pb_report::{Answer, PlacedExplanation};
use pb_sorts::Sink;
use std::alloc::Global;
use std::thread::Threads;

/// Answers a text: reads it, checks it, compiles it to a module, explores that by so many workers,
/// solves the game of what they reached by the solver that is asked for, and writes the report once
/// the answer is known. The bytes are the same with any number of workers and either solver, and
/// whichever instances count, where so many may be declared.
///
/// The text is that of a fixpoint equation system (Groote and Willemse 2005; Groote and Mousavi
/// 2014), and the answer is the truth of its initial instance in the nested fixpoint solution.
/// The gate sees each attempt of a worker to take an instance, and to lift a vertex.
///
/// # Errors
/// `Text` and `Typing` say which rule the text breaks and where, `Limit` which limit of the machine
/// the code of which equation exceeds. `TooManyVertices` comes where the game would have more
/// vertices than it may have, by which instances count, `Memory` where a request for memory was
/// refused, and `Write` where the report could not be written whole. No other error comes.
pub fn solve_text<R: Threads + Sync, G: Progress + Sync, S: Sink>(
    context: &Context<'_, R, G>,
    text: TextInput<'_>,
    options: SolveOptions,
    writer: &mut S,
) -> Result<Answer, SolveError>
    // The answer is the truth of the initial instance in the solution of what the text says, and is
    // reported; nothing is written before it is known; and what a refusal says of the text.
    ensures { ReportsOrRefuses (IsAnswer text.entry.counting text.entry.input.bytes.now)
        (IsRefused text.entry.counting text.entry.input.bytes.now)
        result S.Sink writer.old writer.new }
{
    let verified = verified_text(context.alloc, text)?;
    write_report(context, &verified, text.counting, options, writer)
}

/// Writes the parity game of a text's reached instances, in the form that PGSolver reads.
///
/// # Errors
/// As with `solve_text`.
pub fn game_of<R: Threads + Sync, G: Progress + Sync, S: Sink>(
    context: &Context<'_, R, G>,
    text: TextInput<'_>,
    workers: Workers,
    writer: &mut S,
) -> Result<(), SolveError>
    ensures { DeliversOrRefuses
        (WritesOfModule text.entry.counting WritesGame text.entry.input.bytes.now)
        (IsRefused text.entry.counting text.entry.input.bytes.now)
        result S.Sink writer.old writer.new }
{
    let verified = verified_text(context.alloc, text)?;
    write_game(context, &verified, text.counting, workers, writer)
}

/// Writes the truth of each reached instance of a text in its solution: a line for each, by rising
/// number. What the module's instances are is the text's: `IsModuleOfText` says so of its solution,
/// and of its right sides.
///
/// # Errors
/// As with `solve_text`.
pub fn solution_of<R: Threads + Sync, G: Progress + Sync, S: Sink>(
    context: &Context<'_, R, G>,
    text: TextInput<'_>,
    options: SolveOptions,
    writer: &mut S,
) -> Result<(), SolveError>
    ensures { DeliversOrRefuses
        (WritesOfModule text.entry.counting WritesSolution text.entry.input.bytes.now)
        (IsRefused text.entry.counting text.entry.input.bytes.now)
        result S.Sink writer.old writer.new }
{
    let verified = verified_text(context.alloc, text)?;
    write_solution(context, &verified, text.counting, options, writer)
}

/// Writes a certificate of the game that `game_of` writes: for each vertex its winner, and the
/// winner's choice where the winner moves, in the form that PGSolver writes.
///
/// Whoever holds both texts can check the winners without this program. An edge is kept where the
/// loser moves, or the winner chose it. No kept edge leaves its winner's region, and around each
/// cycle of kept edges the greatest priority is of the winner's parity.
///
/// # Errors
/// As with `solve_text`.
pub fn certificate_of<R: Threads + Sync, G: Progress + Sync, S: Sink>(
    context: &Context<'_, R, G>,
    text: TextInput<'_>,
    options: SolveOptions,
    writer: &mut S,
) -> Result<(), SolveError>
    ensures { DeliversOrRefuses
        (WritesOfModule text.entry.counting WritesCertificate text.entry.input.bytes.now)
        (IsRefused text.entry.counting text.entry.input.bytes.now)
        result S.Sink writer.old writer.new }
{
    let verified = verified_text(context.alloc, text)?;
    write_certificate(context, &verified, text.counting, options, writer)
}

// Writes the evidence of a text that is explained, with the places of its calls where they are
// asked for.
fn write_explained<S: Sink>(
    alloc: Global,
    explained: &ExplainedText,
    places: bool,
    writer: &mut S,
) -> Result<(), SolveError>
    requires { IsExplained explained.now }
    ensures { (counting : Counting) (bytes : List ℕ)
        → IsReadText bytes (spec_form explained.now.typed.spec)
        → IsWellTypedBy counting (spec_form explained.now.typed.spec)
        → DeliversTextEvidence counting places bytes result S.Sink writer.old writer.new }
{
    let verified = &explained.verified;
    named_instances_are_called();
    let explanation = &explained.explanation;
    let call_places = call_places_of(alloc, &explained.typed, verified, explanation, places)?;
    let placed = PlacedExplanation {
        explanation,
        call_places: &call_places,
    };
    write_evidence(alloc, verified, &placed, writer)
}

/// Writes why a text's initial instance has its truth value: the answer, and then a line for each
/// instance of a proof graph (Cranen, Luttik and Willemse 2013), with its name, its truth value,
/// and behind a colon the instances that this rests on.
///
/// By itself a proof graph shows the answer. The initial instance stands first in it, each instance
/// once, and the nearest before others, so that a violated safety property shows its shortest way
/// under the winner's strategy, line by line. Where places are told, behind each instance that
/// another one names stand the line and the column of the call: of the first one that names it.
///
/// # Errors
/// As with `solve_text`.
pub fn explain_text<R: Threads + Sync, G: Progress + Sync, S: Sink>(
    context: &Context<'_, R, G>,
    text: TextInput<'_>,
    options: ExplainOptions,
    writer: &mut S,
) -> Result<(), SolveError>
    ensures { DeliversTextEvidence text.entry.counting options.places text.entry.input.bytes.now
        result S.Sink writer.old writer.new }
{
    let typed = typed(context.alloc, text)?;
    let explained = explained_typed(context, typed, text.counting, options.workers)?;
    write_explained(context.alloc, &explained, options.places, writer)
}
