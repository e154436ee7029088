//! Variables one by one, each with its sort, as they are declared in groups.

ghost use Rattle.std.specs.Prelude.{◌≡◌, ◌++◌, map, IfOk, OnOk};
ghost use Rattle.pb_text_tree.specs.Form.{variable_forms, variables_form};
ghost use Rattle.pb_text_meaning.specs.Erase.{erased_variables};
ghost use Rattle.pb_protocol_scalar_sets.specs.View.{variable_said};

use pb_text_tree::Variables;
use std::alloc::{AllocError, Global};

/// A variable with the name of its sort.
#[derive(Clone, Copy)]
pub struct Variable<'a> {
    pub name: &'a str,
    pub sort: &'a str,
}

fn push_group<'a>(variables: &mut Vec<Variable<'a>>, group: &'a Variables) -> Result<(), AllocError>
    ensures { OnOk result (map variable_said variables.new.items
        ≡ map variable_said variables.old.items ++ erased_variables (variables_form group.now)) }
{
    let sort = group.sort.text.as_str();
    for name in &group.names {
        let name = name.text.as_str();
        variables.push(Variable { name, sort })?;
    }
    Ok(())
}

/// The variables of all groups, in order.
///
/// # Errors
/// Memory was refused.
pub fn variables_of(alloc: Global, groups: &[Variables]) -> Result<Vec<Variable<'_>>, AllocError>
    ensures { IfOk result (λ variables. map variable_said variables.items
        ≡ erased_variables (variable_forms groups.now)) }
{
    let mut variables = Vec::new(alloc);
    for group in groups {
        push_group(&mut variables, group)?;
    }
    Ok(variables)
}
