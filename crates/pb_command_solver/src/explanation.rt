//! Why a module's initial instance is true or false.
ghost use Rattle.std.specs.Prelude.{MatchResult};
ghost use Rattle.pb_report.specs.ModuleEvidence.{IsExplanation};
ghost use Rattle.pb_command_solver.specs.Answers.{SaysTooLarge};

use crate::context::Context;
use crate::options::SolveOptions;
use crate::part::{Rounds, first_part};
use crate::progress::Progress;
use crate::solved_module::solve_from;
use pb_game_of_trees::BuildError;
use pb_report::{Explanation, evidence_of};
use pb_sorts::Counting;
use pb_verifier::Verified;
use std::thread::Threads;

/// Why the initial instance of a module has its truth value, as a proof graph (Cranen, Luttik and
/// Willemse 2013), the initial instance first and the nearest before others. Where the instances
/// nearest to it are enough, no others are explored; else it is solved as by `solve_module`, which
/// goes on from these where one worker explores and keeps only what it finds.
///
/// # Errors
/// `TooManyVertices` where the game would have more vertices than `vertex_limit` has, by which
/// instances count, and the instances nearby are not enough; else `Memory`.
pub fn explain_module<R: Threads + Sync, G: Progress + Sync>(
    context: &Context<'_, R, G>,
    verified: &Verified,
    counting: Counting,
    options: SolveOptions,
) -> Result<Explanation, BuildError>
    ensures { MatchResult result (IsExplanation verified.now)
        (SaysTooLarge counting verified.now) }
{
    let nearby = match first_part(context, verified, counting, options)? {
        Rounds::Enough(part) => return Ok(part.explanation(context.alloc, verified)?),
        Rounds::TooFew(nearby) => nearby,
    };
    match solve_from(context, verified, counting, options, nearby) {
        Ok(module) => Ok(evidence_of(context.alloc, &module.solved, module.explored.rows())?),
        Err(error) => Err(error),
    }
}
