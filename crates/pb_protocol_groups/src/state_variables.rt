//! The state variables of a model, each with its sort.

ghost use Rattle.std.specs.Prelude.{◌≡◌, ◌++◌, IfOk, OnOk};
ghost use Rattle.pb_protocol_packer.specs.View.{variables_in};
ghost use Rattle.pb_protocol_groups.specs.Names.{variables_of_group};
ghost use Rattle.pb_protocol_groups.specs.Variables.{variables_of_state};

use pb_text_tree::{Name, Variables};
use std::alloc::{AllocError, Global};

/// A state variable with its sort.
#[derive(Clone, Copy)]
pub(crate) struct StateVariable<'a> {
    pub name: &'a Name,
    pub sort: &'a Name,
}

fn push_group<'a>(
    variables: &mut Vec<StateVariable<'a>>,
    group: &'a Variables,
) -> Result<(), AllocError>
    ensures { OnOk result (variables_of_state variables.new.items
        ≡ variables_of_state variables.old.items ++ variables_of_group group.now) }
{
    for name in &group.names {
        variables.push(StateVariable {
            name,
            sort: &group.sort,
        })?;
    }
    Ok(())
}

/// The variables of a list, in order.
pub(crate) fn state_variables(
    alloc: Global,
    groups: &[Variables],
) -> Result<Vec<StateVariable<'_>>, AllocError>
    ensures { IfOk result (λ v. variables_of_state v.items ≡ variables_in groups.now) }
{
    let mut variables = Vec::new(alloc);
    for group in groups {
        push_group(&mut variables, group)?;
    }
    Ok(variables)
}
