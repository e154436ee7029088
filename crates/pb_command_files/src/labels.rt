//! Lines with the label of their file.
ghost use Rattle.std.specs.Prelude.{◌≡◌, ◌++◌, [], true, if◌then◌else◌, IfOk, OnOk};
ghost use Rattle.pb_command_files.specs.Labels.{label_where, labelled};

use std::alloc::{AllocError, Global};

/// What precedes each line of a file: its name and `: `, or nothing where the lines aren't named.
pub fn label(alloc: Global, is_named: bool, name: &str) -> Result<Vec<u8>, AllocError>
    ensures { IfOk result (λ label. label.items ≡ label_where is_named name.now) }
{
    let mut label = Vec::new(alloc);
    if is_named {
        label.extend_from_slice(name.as_bytes())?;
        label.extend_from_slice(b": ")?;
    }
    Ok(label)
}

// Appends the label where a line begins.
fn push_label(lines: &mut Vec<u8>, label: &[u8], begins: bool) -> Result<(), AllocError>
    ensures { OnOk result (lines.new.items
        ≡ lines.old.items ++ (if begins then label.now else [])) }
{
    if begins {
        lines.extend_from_slice(label)?;
    }
    Ok(())
}

/// Appends a text, with a label before each of its lines.
pub fn push_labelled(lines: &mut Vec<u8>, label: &[u8], text: &[u8]) -> Result<(), AllocError>
    ensures { OnOk result (lines.new.items ≡ lines.old.items ++ labelled label.now true text.now) }
{
    let mut begins = true;
    for byte in text {
        push_label(lines, label, begins)?;
        lines.push(*byte)?;
        begins = *byte == b'\n';
    }
    Ok(())
}
