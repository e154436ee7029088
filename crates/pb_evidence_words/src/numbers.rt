//! Numbers of lines, which begin with 1.

ghost use Rattle.std.specs.Prelude.{◌≡◌, ◌+◌, ◌++◌, OnOk, decimal, string_bytes};

use std::alloc::{AllocError, Global};

/// Puts the number of the line at a place behind a text.
pub(crate) fn push_line_number(
    alloc: Global,
    text: &mut String,
    place: usize,
) -> Result<(), AllocError>
    ensures { OnOk result (string_bytes text.new
        ≡ string_bytes text.old ++ decimal (place + 1)) }
{
    let number = place as u128 + 1;
    let digits = format!(in alloc; "{number}")?;
    text.push_str(digits.as_str())
}
