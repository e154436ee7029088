//! The texts of a model's properties.

ghost use Rattle.pb_base.specs.declared.limits.TheConstants.{MAX_INPUT_BYTES};
ghost use Rattle.std.specs.Prelude.{◌≡◌, ◌<◌, ◌≤◌, ◌++◌, length, IfOk, IsSome};
ghost use Rattle.std.specs.Prelude.{Err, Some, option_copied};
ghost use Rattle.std.specs.List.{slice_get};
ghost use Rattle.pb_base.specs.declared.or_memory.OrMemory.TheVariants.{Refused};
ghost use Rattle.pb_model_faults.specs.declared.ModelFault.TheVariants.{NoProperty};
ghost use Rattle.pb_base.specs.OrMemory.{IfRefused};
ghost use Rattle.pb_text_tree.specs.Form.{spec_form};
ghost use Rattle.pb_text_printer.specs.Comments.{comment_bytes};
ghost use Rattle.pb_text_printer.specs.Words.{text_bytes};
ghost use Rattle.pb_model_words.specs.GroupLines.{group_lines};
ghost use Rattle.pb_model_tree.specs.Form.{PropertyForm, model_form};
ghost use Rattle.pb_model_properties.specs.Printed.{IsTranslation};
ghost use Rattle.pb_model_properties.specs.Refusals.{IsRefusedText, LacksTranslation};
ghost use Rattle.pb_model_properties.specs.Said.{IsTextOf};
ghost use Rattle.pb_model_properties.specs.Words.{words_in};

use crate::asked::place_of;
use crate::read::read_protocol;
use crate::solved::{SolvedModel, words_of};
use crate::told::told_error;
use pb_model_faults::{ModelError, ModelFault};
use pb_model_typing::property_text;
use pb_model_words::push_group_lines;
use pb_text_printer::{commented_text_is_read_back, print_with_comment};
use pb_typing::Typed;
use std::alloc::{AllocError, Global};

/// The text of the property at a place of a model, with its places in the model.
///
/// # Errors
/// `Typing` comes exactly where the text isn't well typed, as where it is too large, and says which
/// rule it breaks and where, in the protocol; `Memory` only where memory was refused.
pub fn text_at(alloc: Global, solved: &SolvedModel, place: usize) -> Result<Typed, ModelError>
    requires { place < length solved.now.typed.model.properties.items }
    ensures text { IfOk result (λ text. (p : PropertyForm)
        → slice_get (model_form solved.now.typed.model).properties place ≡ Some p
        → IsTextOf (model_form solved.now.typed.model) p (spec_form text.spec)) }
    ensures refused { IfRefused result (λ fault. (p : PropertyForm)
        → slice_get (model_form solved.now.typed.model).properties place ≡ Some p
        → IsRefusedText solved.now p fault) }
{
    match property_text(alloc, &solved.typed, place) {
        Ok(text) => Ok(text),
        Err(error) => Err(told_error(&solved.names, error)),
    }
}

/// The text of a property, below lines that say how the numbers of packed variables are made.
fn printed(alloc: Global, solved: &SolvedModel, text: &Typed) -> Result<Vec<u8>, AllocError>
    ensures { IfOk result (λ written. written.items
        ≡ comment_bytes (group_lines (words_in solved.now))
        ++ text_bytes (spec_form text.now.spec)) }
{
    let words = words_of(alloc, solved)?;
    let mut lines = String::new(alloc);
    push_group_lines(&mut lines, &words)?;
    print_with_comment(alloc, lines.as_str(), &text.spec)
}

/// The text of a property of the model that bytes say, as it is printed: of the first property
/// where none is named. Its answer is true exactly where the model satisfies the property.
///
/// Where the text's parameters hold several of the model's variables, comment lines above it say
/// how: `% line' = line(c1) * 5 + line(c2)`.
///
/// # Errors
/// `Text` and `Typing` say which rule the model breaks, or the text of that property, and where.
/// `NoProperty` comes exactly where the model has no property of the name, and `Memory` only where
/// memory was refused.
pub fn translation_of(
    alloc: Global,
    bytes: &[u8],
    name: Option<&str>,
) -> Result<Vec<u8>, ModelError>
    requires { length bytes.now ≤ MAX_INPUT_BYTES }
    ensures text { IfOk result
        (λ text. IsTranslation (option_copied name.entry) bytes.now text.items) }
    ensures refused { IfRefused result (LacksTranslation (option_copied name.entry) bytes.now) }
    // There is a first one.
    ensures named { result ≡ Err (Refused NoProperty) → IsSome name.entry }
{
    commented_text_is_read_back();
    let solved = read_protocol(alloc, bytes)?;
    let Some(place) = place_of(&solved.typed.model.properties, name) else {
        return Err(ModelFault::NoProperty.into());
    };
    let text = text_at(alloc, &solved, place)?;
    Ok(printed(alloc, &solved, &text)?)
}
