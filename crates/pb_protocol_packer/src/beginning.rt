//! The values of `init`, each with the state variable that begins with it.

ghost use Rattle.std.specs.Prelude.{◌≡◌, IfOk};
ghost use Rattle.std.specs.Option.{option_map};
ghost use Rattle.pb_text_tree.specs.Form.{argument_forms};
ghost use Rattle.pb_protocol_packer.specs.Beginnings.{begun_by, begun_in};
ghost use Rattle.pb_protocol_packer.specs.Initial.{names_by};
ghost use Rattle.pb_protocol_packer.specs.InitialPlaces as places;

use pb_text_tree::{Argument, Name};
use std::alloc::{AllocError, Global};

/// A state variable with the value that it begins with.
#[derive(Clone, Copy)]
pub(crate) struct Beginning<'a> {
    pub name: &'a Name,
    pub value: &'a Argument,
}

/// The variables of these names with the values of `init`.
pub(crate) fn beginnings<'a>(
    alloc: Global,
    names: &[&'a Name],
    values: &'a [Argument],
) -> Result<Vec<Beginning<'a>>, AllocError>
    ensures { IfOk result (λ v. begun_in v.items
        ≡ places.begun_with (names_by names.now) (argument_forms values.now)) }
{
    let mut beginnings = Vec::new(alloc);
    for index in 0..names.len() {
        let Some(value) = values.get(index) else {
            return Ok(beginnings);
        };
        beginnings.push(Beginning {
            name: names[index],
            value,
        })?;
    }
    Ok(beginnings)
}

/// The value that the variable of a name begins with.
pub(crate) fn beginning_of<'a, 'b>(
    beginnings: &'a [Beginning<'b>],
    name: &str,
) -> Option<&'a Beginning<'b>>
    ensures { option_map begun_by result ≡ places.begun_at (begun_in beginnings.now) name.now }
{
    for beginning in beginnings {
        if beginning.name.text.as_str() == name {
            return Some(beginning);
        }
    }
    None
}
