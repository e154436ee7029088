//! The texts of properties, explained.
ghost use Rattle.std.specs.Prelude.{◌<◌, length};
ghost use Rattle.pb_command_models.specs.Outcomes.{ExplainsProperty};

use crate::options::WhyOptions;
use crate::property_faults::{error_of_property, name_place};
use pb_base::OrMemory;
use pb_command_faults::SolveFault;
use pb_command_solver::{Context, Progress};
use pb_command_texts::{ExplainedText, explained_typed};
use pb_model_properties::{SolvedModel, text_at};
use pb_sorts::Counting;
use std::thread::Threads;

/// The text of the property at a place, explained.
///
/// # Errors
/// `Typing` where the text isn't well typed, and `Property` where something of it is too large.
pub(crate) fn explained_at<R: Threads + Sync, G: Progress + Sync>(
    context: &Context<'_, R, G>,
    solved: &SolvedModel,
    place: usize,
    options: WhyOptions,
) -> Result<ExplainedText, OrMemory<SolveFault>>
    requires { place < length solved.now.typed.model.properties.items }
    ensures { ExplainsProperty solved.now place result }
{
    let typed = match text_at(context.alloc, solved, place) {
        Ok(typed) => typed,
        Err(error) => return Err(error.raise()),
    };
    let here = name_place(&solved.typed, place);
    match explained_typed(context, typed, Counting::Reached, options.workers) {
        Ok(explained) => Ok(explained),
        Err(error) => Err(error_of_property(error, here)),
    }
}
