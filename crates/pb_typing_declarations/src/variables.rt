//! Lists of variables, flattened: each variable with its sort.

ghost use Rattle.std.specs.Prelude.{◌≡◌, ◌++◌, IfOk, OnOk};
ghost use Rattle.pb_text_tree.specs.Form.{variables_form, variable_forms};
ghost use Rattle.pb_typing_declarations.specs.Variables.{variables_of};

use crate::entry::Entry;
use pb_text_tree::{Name, Variables};
use std::alloc::{AllocError, Global};

/// The variables of a list, each with the name of its sort.
pub(crate) fn variable_entries(
    alloc: Global,
    groups: &[Variables],
) -> Result<Vec<Entry<'_, &'_ Name>>, AllocError>
    ensures { IfOk result (λ variables. variables_of variables.items ≡ variable_forms groups.now) }
{
    let mut variables = Vec::new(alloc);
    for group in groups {
        push_group(&mut variables, group)?;
    }
    Ok(variables)
}

fn push_group<'a>(
    variables: &mut Vec<Entry<'a, &'a Name>>,
    group: &'a Variables,
) -> Result<(), AllocError>
    ensures { OnOk result (variables_of variables.new.items
        ≡ variables_of variables.old.items ++ variables_form group.now) }
{
    for name in group.names.iter() {
        variables.push(Entry {
            name: &name.text,
            place: name.place,
            value: &group.sort,
        })?;
    }
    Ok(())
}
