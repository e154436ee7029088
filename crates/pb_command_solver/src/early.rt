//! What is told of a module by the instances nearest to the initial one, where they are enough, so
//! that what lies near is told without the others.
ghost use Rattle.std.specs.Prelude.{◌≡◌, IfOk};
ghost use Rattle.pb_command_solver.specs.Answers.{IsEarly, truth_in};

use crate::context::Context;
use crate::options::SolveOptions;
use crate::part::{Rounds, first_part};
use crate::progress::Progress;
use pb_report::Answer;
use pb_report::cut_calls::count_cut;
use pb_sorts::Counting;
use pb_verifier::Verified;
use std::alloc::AllocError;
use std::thread::Threads;

/// What the instances nearest to the initial one tell of a module.
#[derive(Clone, Copy)]
pub enum Early {
    /// Nothing: whether the initial one is true rests on others.
    Unknown,
    /// Whether it is true, whatever the others are.
    Shown(bool),
    /// The answer to the module: they are all reached instances.
    Whole(Answer),
}

impl Early {
    /// Whether the initial instance is true, where that is told.
    pub fn truth(self) -> Option<bool>
        ensures { result ≡ truth_in self }
    {
        match self {
            Early::Unknown => None,
            Early::Shown(truth) => Some(truth),
            Early::Whole(answer) => Some(answer.truth),
        }
    }
}

/// What the parts of the instances that `explain_module` tries first tell of a module: whether the
/// initial one is true, or where all reached ones are near, the answer of `answer_module`.
///
/// # Errors
/// Memory was refused.
pub fn answer_early<R: Threads + Sync, G: Progress + Sync>(
    context: &Context<'_, R, G>,
    verified: &Verified,
    counting: Counting,
    options: SolveOptions,
) -> Result<Early, AllocError>
    ensures { IfOk result (IsEarly counting verified.now) }
{
    let Rounds::Enough(part) = first_part(context, verified, counting, options)? else {
        return Ok(Early::Unknown);
    };
    if part.part.is_whole {
        let cut = count_cut(&part.part.rows);
        return Ok(Early::Whole(Answer {
            truth: part.solved.truth(),
            instances: part.solved.built.instances(),
            cut,
            vertices: part.solved.built.game.len(),
        }));
    }
    let explanation = part.explanation(context.alloc, verified)?;
    Ok(Early::Shown(explanation.evidence.truth))
}
