//! From models to the texts of their properties.
ghost use Rattle.std.specs.Prelude.{◌≡◌, Err, IsSome, option_copied};
ghost use Rattle.pb_command_faults.specs.declared.solve_fault.SolveFault.TheVariants.{NoProperty};
ghost use Rattle.pb_command_models.specs.Writes.{DeliversTranslation};

use pb_command_faults::SolveError;
use pb_command_modules::deliver;
use pb_command_texts::ShortInput;
use pb_model_properties::translation_of;
use pb_sorts::Sink;
use std::alloc::Global;

/// Translates a property of a model to a text of a Boolean equation system, and writes it: the
/// property of the name, or the first where none is named.
///
/// The text's answer is true exactly where the model satisfies the property (Mader 1997; Groote and
/// Willemse 2005), and what is written says that text.
///
/// # Errors
/// `Text` and `Typing` say which rule the model breaks, or the text of that property, and where.
/// `NoProperty` comes exactly where the model has no property of the name, `Memory` where a request
/// for memory was refused, and `Write` where the text could not be written whole. No other error
/// comes.
pub fn translate_text<S: Sink>(
    alloc: Global,
    input: ShortInput<'_>,
    property: Option<&str>,
    writer: &mut S,
) -> Result<(), SolveError>
    ensures text { DeliversTranslation (option_copied property.entry) input.entry.bytes.now
        result S.Sink writer.old writer.new }
    ensures named { result ≡ Err (SolveError.Refused NoProperty) → IsSome property.entry }
{
    let text = translation_of(alloc, input.bytes, property)?;
    deliver(text.as_slice(), writer)
}
