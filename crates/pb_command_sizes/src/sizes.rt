//! From a model to the lines that tell how large it is.
ghost use Rattle.pb_base.specs.declared.limits.TheConstants.{MAX_INPUT_BYTES};
ghost use Rattle.std.specs.Prelude.{◌≡◌, ◌≤◌, Err, IsSome, length, option_copied};
ghost use Rattle.pb_command_faults.specs.declared.solve_fault.SolveFault.TheVariants.{NoProperty};
ghost use Rattle.pb_command_sizes.specs.Writes.{DeliversSizes};

use pb_command_faults::SolveError;
use pb_command_modules::deliver;
use pb_model_sizes::sizes_of;
use pb_sorts::Sink;
use std::alloc::Global;

/// Writes how large the model is that bytes say, at most 67,108,864 of them: the values of its
/// state variables and the states that they make, the steps that are written out, and the equations
/// of each property, or of the one of the name.
///
/// # Errors
/// `Text` and `Typing` say which rule the model breaks and where. `NoProperty` comes exactly where
/// it breaks none and has no property of the name, `Memory` where a request for memory was refused,
/// and `Write` where the lines could not be written whole. No other error comes.
pub fn size_text<S: Sink>(
    alloc: Global,
    bytes: &[u8],
    property: Option<&str>,
    writer: &mut S,
) -> Result<(), SolveError>
    requires { length bytes.now ≤ MAX_INPUT_BYTES }
    ensures sizes { DeliversSizes (option_copied property.entry) bytes.now
        result S.Sink writer.old writer.new }
    ensures named { result ≡ Err (SolveError.Refused NoProperty) → IsSome property.entry }
{
    let lines = sizes_of(alloc, bytes, property)?;
    deliver(lines.as_bytes(), writer)
}
