//! Prints a text.

ghost use Rattle.std.specs.Prelude.{◌≡◌, ℕ, List, IfOk};
ghost use Rattle.pb_text_tree.specs.Form.{spec_form};
ghost use Rattle.pb_text.specs.Parsing.{IsReading};
ghost use Rattle.pb_text_printer.specs.Printing.{ReadsAs};
ghost use Rattle.pb_text_printer.specs.Words.{text_bytes};

use crate::text::write_text;
use pb_text_tree::Spec;
use std::alloc::{AllocError, Global};

/// The text of a tree, with brackets only where the grammar needs them to be read as the same tree.
///
/// Ranges come first, each on its line, then sorts, equations and the initial instance. What is
/// printed of a tree that was read is read back as that tree but for places.
///
/// # Errors
/// Memory was refused.
pub fn print(alloc: Global, spec: &Spec) -> Result<Vec<u8>, AllocError>
    ensures written { IfOk result (λ text. text.items ≡ text_bytes (spec_form spec.now)) }
    ensures read_back { IfOk result (λ text. (bytes : List ℕ) → IsReading bytes (spec_form spec.now)
        → ReadsAs text.items (spec_form spec.now)) }
{
    Ok(write_text(alloc, spec)?.into_bytes())
}
