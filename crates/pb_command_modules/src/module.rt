//! The texts of a verified module: its report, its game, its solution, a certificate and its
//! evidence.
ghost use Rattle.std.specs.Prelude.{IfOk};
ghost use Rattle.pb_base.specs.OrMemory.{IfRefused};
ghost use Rattle.pb_report.specs.ModuleEvidence.{IsExplanation};
ghost use Rattle.pb_command_solver.specs.Answers.{IsAnswerOf};
ghost use Rattle.pb_command_modules.specs.Delivery.{ReportsOrRefuses};
ghost use Rattle.pb_command_modules.specs.ModuleDelivery.{DeliversEvidence, DeliversOfModule};
ghost use Rattle.pb_command_modules.specs.ModuleDelivery.{IsPlacedExplanation};
ghost use Rattle.pb_command_modules.specs.Refusals.{IsRefusedModule};
ghost use Rattle.pb_command_modules.specs.Writes.{WritesCertificate, WritesGame, WritesSolution};

use pb_base::OrMemory;
use pb_command_faults::{SolveError, SolveFault};
use pb_command_solver::{
    Context, Progress, SolveOptions, Workers, answer_module, build_module, explain_module,
    solve_module,
};
use pb_game::Solver;
use pb_machine::instances_have_trees;
use pb_report::certificate_text::certificate_text;
use pb_report::evidence_text::evidence_text;
use pb_report::game_text::game_text;
use pb_report::solution_text::solution_text;
use pb_report::{Answer, Explanation, PlacedExplanation, report};
use pb_sorts::{Counting, Sink};
use pb_verifier::Verified;
use std::alloc::Global;
use std::thread::Threads;

/// Answers a module, and writes the report of the answer once it is known.
///
/// # Errors
/// `TooManyVertices` comes where the game would have more vertices than it may have, by which
/// instances count, `Memory` where a request for memory was refused, and `Write` where the text
/// could not be written whole.
pub fn write_report<R: Threads + Sync, G: Progress + Sync, S: Sink>(
    context: &Context<'_, R, G>,
    verified: &Verified,
    counting: Counting,
    options: SolveOptions,
    writer: &mut S,
) -> Result<Answer, SolveError>
    ensures { ReportsOrRefuses (IsAnswerOf counting verified.now)
        (IsRefusedModule counting verified.now) result S.Sink writer.old writer.new }
{
    let answer = answer_module(context, verified, counting, options)?;
    report(context.alloc, &answer, writer)?;
    Ok(answer)
}

/// Writes the parity game of the reached instances. Nobody solves it.
///
/// # Errors
/// As with `write_report`.
pub fn write_game<R: Threads + Sync, G: Progress + Sync, S: Sink>(
    context: &Context<'_, R, G>,
    verified: &Verified,
    counting: Counting,
    workers: Workers,
    writer: &mut S,
) -> Result<(), SolveError>
    ensures { DeliversOfModule counting WritesGame verified.now result
        S.Sink writer.old writer.new }
{
    let module = build_module(context, verified, counting, workers)?;
    let reached = module.explored.rows();
    game_text(context.alloc, verified, &module.built, reached, writer)?;
    Ok(())
}

/// Writes the truth of each reached instance.
///
/// # Errors
/// As with `write_report`.
pub fn write_solution<R: Threads + Sync, G: Progress + Sync, S: Sink>(
    context: &Context<'_, R, G>,
    verified: &Verified,
    counting: Counting,
    options: SolveOptions,
    writer: &mut S,
) -> Result<(), SolveError>
    ensures { DeliversOfModule counting WritesSolution verified.now result
        S.Sink writer.old writer.new }
{
    let module = solve_module(context, verified, counting, options)?;
    let reached = module.explored.rows();
    solution_text(context.alloc, verified, &module.solved, reached, writer)?;
    Ok(())
}

/// Writes a certificate of the game that `write_game` writes: the winner of each vertex, and the
/// winner's choices.
///
/// # Errors
/// As with `write_report`.
pub fn write_certificate<R: Threads + Sync, G: Progress + Sync, S: Sink>(
    context: &Context<'_, R, G>,
    verified: &Verified,
    counting: Counting,
    options: SolveOptions,
    writer: &mut S,
) -> Result<(), SolveError>
    ensures { DeliversOfModule counting WritesCertificate verified.now result
        S.Sink writer.old writer.new }
{
    let module = solve_module(context, verified, counting, options)?;
    let game = &module.solved.built.game;
    let certificate = module.solved.certified.solution();
    certificate_text(context.alloc, game, certificate, writer)?;
    Ok(())
}

/// Why the initial instance of a module has its truth value.
///
/// # Errors
/// `TooManyVertices` comes where the game would have more vertices than it may have, by which
/// instances count; memory was refused.
pub fn explained<R: Threads + Sync, G: Progress + Sync>(
    context: &Context<'_, R, G>,
    verified: &Verified,
    counting: Counting,
    workers: Workers,
) -> Result<Explanation, OrMemory<SolveFault>>
    ensures explanation { IfOk result (IsExplanation verified.now) }
    ensures refused { IfRefused result (IsRefusedModule counting verified.now) }
{
    let solver = Solver::Zielonka;
    let options = SolveOptions { workers, solver };
    match explain_module(context, verified, counting, options) {
        Ok(explanation) => Ok(explanation),
        Err(error) => Err(error.raise()),
    }
}

/// Writes the evidence of a module, with the places that are given of its calls.
///
/// # Errors
/// `Memory` comes where a request for memory was refused, and `Write` where the text could not be
/// written whole.
pub fn write_evidence<S: Sink>(
    alloc: Global,
    verified: &Verified,
    placed: &PlacedExplanation<'_>,
    writer: &mut S,
) -> Result<(), SolveError>
    requires { IsPlacedExplanation verified.now placed.now }
    ensures { DeliversEvidence verified.now placed.now result S.Sink writer.old writer.new }
{
    instances_have_trees(verified);
    evidence_text(alloc, verified, placed, writer)?;
    Ok(())
}
