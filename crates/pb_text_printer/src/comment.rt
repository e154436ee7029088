//! Prints a text with a comment above it.

ghost use Rattle.std.specs.Prelude.{◌≡◌, ◌∷◌, ◌++◌, [], codes, if◌then◌else◌, IfOk};
ghost use Rattle.std.specs.Result.{OnOk};
ghost use Rattle.pb_text_tree.specs.Form.{spec_form};
ghost use Rattle.pb_text_printer.specs.Comments.{comment_bytes};
ghost use Rattle.pb_text_printer.specs.Words.{text_bytes};

use crate::printing::print;
use pb_text_tree::Spec;
use std::alloc::{AllocError, Global};

/// A byte of a comment, behind `% ` where it begins a line.
fn push_byte(text: &mut Vec<u8>, begins_line: bool, byte: u8) -> Result<(), AllocError>
    ensures { OnOk result (text.new.items ≡ text.old.items
        ++ ((if begins_line then codes "% " else []) ++ byte ∷ [])) }
{
    if begins_line {
        text.extend_from_slice(b"% ")?;
    }
    text.push(byte)?;
    Ok(())
}

/// A comment, each line of it behind `% `.
fn push_comment(text: &mut Vec<u8>, comment: &str) -> Result<(), AllocError>
    ensures { OnOk result (text.new.items ≡ text.old.items ++ comment_bytes comment.now) }
{
    let mut begins_line = true;
    for byte in comment.as_bytes() {
        push_byte(text, begins_line, *byte)?;
        begins_line = *byte == b'\n';
    }
    if begins_line {
        return Ok(());
    }
    text.push(b'\n')?;
    Ok(())
}

/// The text of a tree as `print` writes it, below a comment: each line of the comment stands behind
/// `% `, and nothing where it is empty. What is read is the tree, whatever the comment says.
///
/// # Errors
/// Memory was refused.
pub fn print_with_comment(alloc: Global, comment: &str, spec: &Spec) -> Result<Vec<u8>, AllocError>
    ensures { IfOk result (λ text. text.items
        ≡ comment_bytes comment.now ++ text_bytes (spec_form spec.now)) }
{
    let mut text = Vec::new(alloc);
    push_comment(&mut text, comment)?;
    let printed = print(alloc, spec)?;
    text.extend_from_slice(&printed)?;
    Ok(text)
}
