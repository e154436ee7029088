//! Writing one text whole, which is all that a command writes.
ghost use Rattle.std.specs.Prelude.{◌≡◌, IfErr};
ghost use Rattle.pb_command_modules.specs.Delivery.{Delivers};

use pb_command_faults::SolveError;
use pb_sorts::{Sink, put};

/// Writes a text.
///
/// # Errors
/// `Write` where it could not be written whole.
pub fn deliver<S: Sink>(text: &[u8], writer: &mut S) -> Result<(), SolveError>
    ensures text { Delivers (λ t. t ≡ text.now) result S.Sink writer.old writer.new }
    ensures failed { IfErr result (λ e. e ≡ SolveError.Write (record {})) }
{
    match put(text, writer) {
        Ok(()) => Ok(()),
        Err(failed) => Err(SolveError::Write(failed)),
    }
}
