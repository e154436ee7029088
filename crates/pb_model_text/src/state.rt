//! Reads the state variables of a protocol, with the indices of arrays.

ghost use Rattle.std.specs.Prelude.{map, flat_map};
ghost use Rattle.pb_text_terms.specs.Readers.{ReadsSome};
ghost use Rattle.pb_text.specs.Parsing.{depth_limit};
ghost use Rattle.pb_protocol_tree.specs.Form.{state_variables_form};
ghost use Rattle.pb_model_text.specs.Links.{indexed};
ghost use Rattle.pb_model_text.specs.ModelReading as reading;

use pb_protocol_tree::{StateVariable, StateVariables};
use pb_text::system::parameters;
use pb_text_lexer::fault::ReadingError;
use pb_text_lexer::input::Input;
use pb_text_lexer::kind::{Kind, same_kind};
use pb_text_terms::variable::name;
use std::alloc::Global;

/// A name, with indices in brackets where it is an array.
#[tactic(auto, unfolding(crate::specs::ModelReading::indexed_name))]
fn state_variable(input: &mut Input<'_>, alloc: Global) -> Result<StateVariable, ReadingError>
    ensures { ReadsSome indexed (reading.indexed_name depth_limit) input.old result input.new }
{
    let name = name(input, alloc)?;
    let indices = parameters(input, alloc)?;
    Ok(StateVariable { name, indices })
}

/// State variables with commas between them.
fn variable_list(input: &mut Input<'_>, alloc: Global) -> Result<Vec<StateVariable>, ReadingError>
    ensures { ReadsSome (λ v. map indexed v.items) (reading.indexed_names depth_limit)
        input.old result input.new }
{
    let mut variables = Vec::with_capacity(alloc, 1)?;
    'variables: loop {
        let variable = state_variable(input, alloc)?;
        variables.push(variable)?;
        if !same_kind(input.kind(), Kind::Comma) {
            return Ok(variables);
        }
        input.take();
    }
}

/// State variables with commas between them, a colon and their sort.
#[tactic(auto, unfolding(crate::specs::ModelReading::state_group))]
fn state_group(input: &mut Input<'_>, alloc: Global) -> Result<StateVariables, ReadingError>
    ensures { ReadsSome state_variables_form (reading.state_group depth_limit)
        input.old result input.new }
{
    let variables = variable_list(input, alloc)?;
    input.expect(Kind::Colon)?;
    let sort = name(input, alloc)?;
    Ok(StateVariables { variables, sort })
}

/// State variables with their sorts, of one sort or of several.
pub fn state_variables(
    input: &mut Input<'_>,
    alloc: Global,
) -> Result<Vec<StateVariables>, ReadingError>
    ensures { ReadsSome (λ v. flat_map state_variables_form v.items)
        (reading.state_variables depth_limit) input.old result input.new }
{
    let mut variables = Vec::with_capacity(alloc, 1)?;
    'groups: loop {
        let group = state_group(input, alloc)?;
        variables.push(group)?;
        if !same_kind(input.kind(), Kind::Comma) {
            return Ok(variables);
        }
        input.take();
    }
}
