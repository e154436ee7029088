//! Modules whose game is built: what is solved, whether its rows are kept behind it or not.
ghost use Rattle.std.specs.Prelude.{IfOk, MatchResult};
ghost use Rattle.pb_exploration_reached.specs.Nearby.{IsNearby};
ghost use Rattle.pb_exploration_reached.specs.Rows.{AreExploredRows};
ghost use Rattle.pb_command_solver.specs.Answers.{IsBuiltModule, SaysTooLarge};
ghost use Rattle.pb_command_solver.specs.Solving.{IsSolvedBy};

use crate::context::Context;
use crate::options::SolveOptions;
use crate::progress::{Phase, Progress};
use crate::solve;
use crate::workers::Workers;
use pb_base::MAX_INSTANCES;
use pb_evidence_nearby::Nearby;
use pb_exploration::{Explored, Limits, explore};
use pb_game_of_trees::{BuildError, Crew, Solved, TooManyVertices, TreeGame, build, vertex_limit};
use pb_machine::instances_have_trees;
use pb_sorts::Counting;
use pb_verifier::Verified;
use std::alloc::AllocError;
use std::thread::Threads;

/// The reached instances of a module, with their game.
#[derive(Drop)]
pub struct BuiltModule {
    pub explored: Explored,
    pub built: TreeGame,
}

/// Explores the reached instances of a verified module, by so many workers. The gate sees each
/// attempt of a worker to take an instance, and that the work begins.
///
/// # Errors
/// `TooManyVertices` where more instances are reached than `vertex_limit` has, by which instances
/// count; else `Memory`.
pub(crate) fn explore_module<R: Threads + Sync, G: Progress + Sync>(
    context: &Context<'_, R, G>,
    verified: &Verified,
    counting: Counting,
    workers: Workers,
) -> Result<Explored, BuildError>
    ensures { MatchResult result (λ explored. AreExploredRows verified.now explored)
        (SaysTooLarge counting verified.now) }
{
    context.gate.begins(Phase::Exploring);
    let limits = Limits {
        workers: workers.count,
        instances: vertex_limit(counting),
    };
    let reached = explore(context.rt, context.alloc, verified, limits, context.gate)?;
    let Some(explored) = reached else {
        return Err(BuildError::Refused(TooManyVertices));
    };
    Ok(explored)
}

/// Explores the reached instances of a verified module, by so many workers, and builds their game.
/// The gate sees each attempt of a worker to take an instance, and both parts of the work. Nothing
/// is solved.
///
/// # Errors
/// `TooManyVertices` where the game would have more vertices than `vertex_limit` has, by which
/// instances count, which may be told as soon as so many instances are reached; else `Memory`.
pub fn build_module<R: Threads + Sync, G: Progress + Sync>(
    context: &Context<'_, R, G>,
    verified: &Verified,
    counting: Counting,
    workers: Workers,
) -> Result<BuiltModule, BuildError>
    ensures { MatchResult result (IsBuiltModule counting verified.now)
        (SaysTooLarge counting verified.now) }
{
    match explore_module(context, verified, counting, workers) {
        Ok(explored) => {
            context.gate.begins(Phase::Building);
            build_explored(&crew_of(context, workers), verified, counting, explored)
        }
        Err(error) => Err(error),
    }
}

/// The same, going on from the instances nearby where one worker explores and keeps only what it
/// finds.
pub(crate) fn build_from<R: Threads + Sync, G: Progress + Sync>(
    context: &Context<'_, R, G>,
    verified: &Verified,
    counting: Counting,
    workers: Workers,
    nearby: Nearby,
) -> Result<BuiltModule, BuildError>
    requires { IsNearby verified.now nearby }
    ensures { MatchResult result (IsBuiltModule counting verified.now)
        (SaysTooLarge counting verified.now) }
{
    if verified.layout().count() <= MAX_INSTANCES as u64 {
        drop(nearby);
        return build_module(context, verified, counting, workers);
    }
    context.gate.begins(Phase::Exploring);
    let alloc = context.alloc;
    let most = vertex_limit(counting);
    let Some(rows) = nearby.explore_rest(alloc, verified, most, context.gate)? else {
        return Err(BuildError::Refused(TooManyVertices));
    };
    context.gate.begins(Phase::Building);
    let crew = crew_of(context, workers);
    build_explored(&crew, verified, counting, Explored::of_rows(rows))
}

/// So many workers, with the context's threads and memory.
pub(crate) fn crew_of<'a, R, G>(context: &Context<'a, R, G>, workers: Workers) -> Crew<'a, R> {
    Crew {
        rt: context.rt,
        alloc: context.alloc,
        workers: workers.count,
    }
}

/// Builds the game of a module's reached instances, however they were explored: by `explore`, or by
/// a caller's own workers, whose words `Explored::gather` reads.
///
/// # Errors
/// As with `build_module`.
pub fn build_explored<R: Threads + Sync>(
    crew: &Crew<'_, R>,
    verified: &Verified,
    counting: Counting,
    explored: Explored,
) -> Result<BuiltModule, BuildError>
    requires { AreExploredRows verified.now explored }
    ensures { MatchResult result (IsBuiltModule counting verified.now)
        (SaysTooLarge counting verified.now) }
{
    instances_have_trees(verified);
    match build(crew, verified, explored.rows(), counting) {
        Ok(built) => Ok(BuiltModule { explored, built }),
        Err(error) => Err(error),
    }
}

/// Solves a game by the solver that is asked for. The checker has certified the winners.
pub(crate) fn solve_game<R: Threads + Sync, G: Progress + Sync>(
    context: &Context<'_, R, G>,
    built: TreeGame,
    options: SolveOptions,
) -> Result<Solved, AllocError>
    ensures { IfOk result (IsSolvedBy options.solver built) }
{
    let certified = solve(context, &built.game, options.solver, options.workers.count)?;
    Ok(Solved::new(built, certified))
}
