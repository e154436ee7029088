//! Verified modules that are solved.
ghost use Rattle.std.specs.Prelude.{IfOk, MatchResult};
ghost use Rattle.pb_sorts.specs.declared.counting.Counting.{Counting};
ghost use Rattle.pb_bytecode.specs.Contents.{Contents};
ghost use Rattle.pb_exploration_reached.specs.Nearby.{IsNearby};
ghost use Rattle.pb_command_solver.specs.Answers.{IsBuiltModule, IsSolutionOf, SaysTooLarge};

use crate::built_module::{BuiltModule, build_from, build_module, solve_game};
use crate::context::Context;
use crate::options::SolveOptions;
use crate::progress::{Phase, Progress};
use pb_evidence_nearby::Nearby;
use pb_exploration::Explored;
use pb_game_of_trees::{BuildError, Solved};
use pb_sorts::Counting;
use pb_verifier::Verified;
use std::alloc::AllocError;
use std::thread::Threads;

/// The reached instances of a module, with their solved game.
#[derive(Drop)]
pub struct SolvedModule {
    pub explored: Explored,
    pub solved: Solved,
}

/// Solves a verified module: workers explore its reached instances, and the game of these is solved
/// (Mader 1997) by the solver that is asked for, with a certificate of its winners. The gate sees
/// each attempt of a worker to take an instance, and to lift a vertex, and each part of the work.
///
/// # Errors
/// `TooManyVertices` where the game would have more vertices than `vertex_limit` has, by which
/// instances count; else `Memory`.
pub fn solve_module<R: Threads + Sync, G: Progress + Sync>(
    context: &Context<'_, R, G>,
    verified: &Verified,
    counting: Counting,
    options: SolveOptions,
) -> Result<SolvedModule, BuildError>
    ensures { MatchResult result (IsSolutionOf counting verified.now options.solver)
        (SaysTooLarge counting verified.now) }
{
    match build_module(context, verified, counting, options.workers) {
        Ok(unsolved) => Ok(solve_built(context, options, unsolved)?),
        Err(error) => Err(error),
    }
}

/// Solves a verified module as `solve_module` does, going on from the instances nearby where one
/// worker explores and keeps only what it finds.
pub(crate) fn solve_from<R: Threads + Sync, G: Progress + Sync>(
    context: &Context<'_, R, G>,
    verified: &Verified,
    counting: Counting,
    options: SolveOptions,
    nearby: Nearby,
) -> Result<SolvedModule, BuildError>
    requires { IsNearby verified.now nearby }
    ensures { MatchResult result (IsSolutionOf counting verified.now options.solver)
        (SaysTooLarge counting verified.now) }
{
    match build_from(context, verified, counting, options.workers, nearby) {
        Ok(unsolved) => Ok(solve_built(context, options, unsolved)?),
        Err(error) => Err(error),
    }
}

/// A module whose game is built, once that is solved.
fn solve_built<R: Threads + Sync, G: Progress + Sync>(
    context: &Context<'_, R, G>,
    options: SolveOptions,
    unsolved: BuiltModule,
) -> Result<SolvedModule, AllocError>
    ensures { IfOk result (λ solved. (counting : Counting) (m : Contents)
        → IsBuiltModule counting m unsolved → IsSolutionOf counting m options.solver solved) }
{
    let BuiltModule { explored, built } = unsolved;
    context.gate.begins(Phase::Solving);
    let solved = solve_game(context, built, options)?;
    Ok(SolvedModule { explored, solved })
}
