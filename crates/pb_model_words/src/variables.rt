//! Variables one by one, each with its sort, as they are declared in groups.

ghost use Rattle.std.specs.Prelude.{◌≡◌, ◌++◌, map, IfOk, OnOk};
ghost use Rattle.pb_text_tree.specs.Form.{variable_forms, variables_form};
ghost use Rattle.pb_model_words.specs.View.{variable_said};

use pb_text_tree::{Name, Place, Variables};
use std::alloc::{AllocError, Global};

/// A variable by what it is called, with the place of its name and its sort.
#[derive(Clone, Copy)]
pub(crate) struct Variable<'a> {
    pub name: &'a str,
    pub place: Place,
    pub sort: &'a Name,
}

/// The variables of all groups, in order.
///
/// # Errors
/// Memory was refused.
pub(crate) fn variables_of(
    alloc: Global,
    groups: &[Variables],
) -> Result<Vec<Variable<'_>>, AllocError>
    ensures { IfOk result
        (λ variables. map variable_said variables.items ≡ variable_forms groups.now) }
{
    let mut variables = Vec::new(alloc);
    for group in groups {
        push_group(&mut variables, group)?;
    }
    Ok(variables)
}

fn push_group<'a>(variables: &mut Vec<Variable<'a>>, group: &'a Variables) -> Result<(), AllocError>
    ensures { OnOk result (map variable_said variables.new.items
        ≡ map variable_said variables.old.items ++ variables_form group.now) }
{
    let sort = &group.sort;
    for name in &group.names {
        let place = name.place;
        let name = name.text.as_str();
        variables.push(Variable { name, place, sort })?;
    }
    Ok(())
}
