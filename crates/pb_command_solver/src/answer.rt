//! Answers of modules, where nothing else is asked for.
ghost use Rattle.std.specs.Prelude.{MatchResult};
ghost use Rattle.pb_exploration_reached.specs.Rows.{AreExploredRows};
ghost use Rattle.pb_command_solver.specs.Answers.{IsAnswerOf, SaysTooLarge};

use crate::built_module::{crew_of, explore_module, solve_game};
use crate::context::Context;
use crate::options::SolveOptions;
use crate::progress::{Phase, Progress};
use pb_exploration::Explored;
use pb_game_of_trees::{BuildError, draft_module};
use pb_machine::instances_have_trees;
use pb_report::Answer;
use pb_report::cut_calls::count_cut;
use pb_sorts::Counting;
use pb_verifier::Verified;
use std::thread::Threads;

/// Answers a verified module, which is solved as by `solve_module`: the truth of the initial
/// instance in the nested solution of the module's equations (Groote and Willemse 2005), how many
/// instances were reached, how many of these meet a cut, and how many vertices the game has. Which
/// instances count against the limit of vertices, `counting` says. The trees of the instances go
/// before their game is finished, so that this takes less memory.
///
/// # Errors
/// As with `solve_module`.
pub fn answer_module<R: Threads + Sync, G: Progress + Sync>(
    context: &Context<'_, R, G>,
    verified: &Verified,
    counting: Counting,
    options: SolveOptions,
) -> Result<Answer, BuildError>
    ensures { MatchResult result (IsAnswerOf counting verified.now)
        (SaysTooLarge counting verified.now) }
{
    match explore_module(context, verified, counting, options.workers) {
        Ok(explored) => answer_explored(context, verified, counting, options, explored),
        Err(error) => Err(error),
    }
}

/// The answer from a module's reached instances, whose trees go as soon as the vertices of their
/// game are known.
fn answer_explored<R: Threads + Sync, G: Progress + Sync>(
    context: &Context<'_, R, G>,
    verified: &Verified,
    counting: Counting,
    options: SolveOptions,
    explored: Explored,
) -> Result<Answer, BuildError>
    requires { AreExploredRows verified.now explored }
    ensures { MatchResult result (IsAnswerOf counting verified.now)
        (SaysTooLarge counting verified.now) }
{
    instances_have_trees(verified);
    context.gate.begins(Phase::Building);
    let crew = crew_of(context, options.workers);
    match draft_module(&crew, verified, explored.rows(), counting) {
        Ok(drafted) => {
            let cut = count_cut(explored.rows());
            drop(explored);
            let built = drafted.finish(context.alloc)?;
            context.gate.begins(Phase::Solving);
            let solved = solve_game(context, built, options)?;
            Ok(Answer {
                truth: solved.truth(),
                instances: solved.built.instances(),
                cut,
                vertices: solved.built.game.len(),
            })
        }
        Err(error) => Err(error),
    }
}
