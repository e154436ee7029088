//! The line that names the elements of a set.

ghost use Rattle.std.specs.Prelude.{◌≡◌, ◌++◌, flat_map, OnOk, string_bytes};
ghost use Rattle.pb_text_meaning.specs.Sorts.{declared};
ghost use Rattle.pb_protocol_scalar_sets.specs.Lines.{element_text, enumerator_at, enumerators_of};
ghost use Rattle.pb_protocol_scalar_sets.specs.Lines.{symmetry_line};
ghost use Rattle.pb_protocol_scalar_sets.specs.Sorts.{enumerator_by, enumerators_in, spec_of};
ghost use Rattle.std.specs.Option.{option_map};

use crate::enumerator::enumerators;
use crate::scalar_set::ScalarSet;
use pb_text_tree::Enumerator;
use std::alloc::AllocError;

/// The enumerator whose value an element is, if there is one.
fn enumerator_at(enumerators: &[Enumerator], element: i32) -> Option<&Enumerator>
    ensures { option_map enumerator_by result
        ≡ enumerator_at (enumerators_in enumerators.now) element }
{
    match usize::try_from(element) {
        Ok(place) => enumerators.get(place),
        Err(_) => None,
    }
}

/// Adds an element behind a blank.
fn push_element(
    line: &mut String,
    enumerators: &[Enumerator],
    element: i32,
) -> Result<(), AllocError>
    ensures { OnOk result (string_bytes line.new
        ≡ string_bytes line.old ++ element_text (enumerators_in enumerators.now) element) }
{
    line.push_str(" ")?;
    match enumerator_at(enumerators, element) {
        Some(enumerator) => line.push_str(enumerator.name.text.as_str()),
        None => write!(line, "{element}"),
    }
}

fn push_elements(
    line: &mut String,
    enumerators: &[Enumerator],
    elements: &[i32],
) -> Result<(), AllocError>
    ensures { OnOk result (string_bytes line.new ≡ string_bytes line.old
        ++ flat_map (element_text (enumerators_in enumerators.now)) elements.now) }
{
    for element in elements {
        push_element(line, enumerators, *element)?;
    }
    Ok(())
}

/// Adds the line that names the elements of a set: `symmetry Node n1 n2 n3`.
///
/// # Errors
/// Memory was refused.
pub fn push_symmetry(lines: &mut String, set: &ScalarSet<'_>) -> Result<(), AllocError>
    ensures { OnOk result (string_bytes lines.new ≡ string_bytes lines.old
        ++ symmetry_line (spec_of set.now.protocol.now) set.now.sort.now set.now.moved.now) }
{
    lines.push_str("symmetry ")?;
    lines.push_str(set.sort)?;
    push_elements(lines, enumerators(set.protocol, set.sort), set.moved)?;
    lines.push_str("\n")
}
