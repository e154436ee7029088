//! The names of an array's elements.

ghost use Rattle.std.specs.Prelude.{◌≡◌, ◌++◌, true, map, decimal, IfOk, OnOk, string_bytes};
ghost use Rattle.std.specs.List.{list_all};
ghost use Rattle.pb_base.specs.Names.{is_name_byte};
ghost use Rattle.pb_protocol_unfolding.specs.Written.{element, element_of, spelled};
ghost use Rattle.pb_protocol_unfolder_terms.specs.Values.{written_term};

use crate::written::Written;
use pb_text_tree::{Name, copy_name};
use std::alloc::{AllocError, Global};

/// Adds a number in decimal.
fn push_number(name: &mut String, number: u64) -> Result<(), AllocError>
    ensures added { OnOk result (string_bytes name.new ≡ string_bytes name.old ++ decimal number) }
    ensures bytes { list_all is_name_byte (decimal number) ≡ true }
{
    write!(name, "{number}")
}

/// Adds how a written value stands in a name.
fn push_spelled(name: &mut String, value: Written<'_>) -> Result<(), AllocError>
    ensures added { OnOk result
        (string_bytes name.new ≡ string_bytes name.old ++ spelled (written_term value.entry)) }
    ensures bytes { OnOk result
        (list_all is_name_byte (spelled (written_term value.entry)) ≡ true) }
{
    match value {
        Written::Truth(true) => name.push_str("true"),
        Written::Truth(false) => name.push_str("false"),
        Written::Number(number) => push_number(name, number),
        Written::Negative(number) => {
            name.push_str("m")?;
            push_number(name, number)
        }
        Written::Enumerator(enumerator) => name.push_str(enumerator.text.as_str()),
    }
}

/// The name of an array, or of a part of one, at one more written value: `x'k`, at the place of the
/// array's name.
pub(crate) fn element(alloc: Global, name: &Name, value: Written<'_>) -> Result<Name, AllocError>
    ensures text { IfOk result (λ n. string_bytes n.text
        ≡ element (string_bytes name.now.text) (written_term value.entry)) }
    ensures place { IfOk result (λ n. n.place ≡ name.now.place) }
{
    let mut text = name.text.as_str().to_owned(alloc)?;
    text.push_str("'")?;
    push_spelled(&mut text, value)?;
    let place = name.place;
    Ok(Name { place, text })
}

/// The name of an array's element at written values: `x'k'l`, at the place of the array's name.
///
/// # Errors
/// Memory was refused.
pub fn element_name(alloc: Global, array: &Name, index: &[Written<'_>]) -> Result<Name, AllocError>
    ensures { IfOk result (λ n. string_bytes n.text
        ≡ element_of (string_bytes array.now.text) (map written_term index.now)) }
{
    let mut name = copy_name(alloc, array)?;
    for value in index {
        name = element(alloc, &name, *value)?;
    }
    Ok(name)
}
