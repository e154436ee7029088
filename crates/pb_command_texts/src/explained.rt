//! Texts, explained.
ghost use Rattle.pb_command_texts.specs.Explained.{ExplainsText};

use crate::compile::verified;
use pb_base::OrMemory;
use pb_command_faults::SolveFault;
use pb_command_modules::explained;
use pb_command_solver::{Context, Progress, Workers};
use pb_report::Explanation;
use pb_sorts::Counting;
use pb_typing::Typed;
use pb_verifier::Verified;
use std::thread::Threads;

/// A text, its module, and why that has its answer.
#[derive(Drop)]
pub struct ExplainedText {
    pub typed: Typed,
    pub verified: Verified,
    pub explanation: Explanation,
}

/// This text, explained.
///
/// # Errors
/// `Limit` where its code exceeds a limit, and `TooManyVertices` where its game is too large, by
/// which instances count.
pub fn explained_typed<R: Threads + Sync, G: Progress + Sync>(
    context: &Context<'_, R, G>,
    typed: Typed,
    counting: Counting,
    workers: Workers,
) -> Result<ExplainedText, OrMemory<SolveFault>>
    ensures { ExplainsText counting typed result }
{
    let verified = verified(context.alloc, &typed)?;
    let explanation = explained(context, &verified, counting, workers)?;
    Ok(ExplainedText {
        typed,
        verified,
        explanation,
    })
}
