//! A protocol without arrays, definitions, values in sets of steps and quantifiers is a flat model,
//! word for word.

ghost use Rattle.std.specs.Prelude.{◌≡◌, true, map, flat_map, IfOk};
ghost use Rattle.pb_text_tree.specs.Form.{variable_forms};
ghost use Rattle.pb_model_tree.specs.Form as flat;
ghost use Rattle.pb_protocol_tree.specs.Form.{property_form, protocol_form, state_variables_form};
ghost use Rattle.pb_protocol_tree.specs.Form.{step_form};
ghost use Rattle.pb_protocol_meaning.specs.Erase.{protocol_of};
ghost use Rattle.pb_model_meaning.specs.Erase.{model_of};
ghost use Rattle.pb_protocol_unfolding.specs.Plain.{plain};
ghost use Rattle.pb_protocol_unfolder.specs.Plain.{flat_form, flat_property, flat_step_form, flat_variable};
ghost use Rattle.pb_protocol_unfolder.specs.Plain.{is_plain_protocol, plain_form};

use crate::plain_formula::flat_formula;
use crate::plain_step::{flat_step, flat_variables};
use pb_model_tree as flat;
use pb_model_tree::Model;
use pb_protocol_tree::{Property, Protocol, StateVariables, Step};
use pb_text_tree::Variables;
use std::alloc::{AllocError, Global};

/// State variables, each without its indices.
fn flat_state(alloc: Global, groups: Vec<StateVariables>) -> Result<Vec<Variables>, AllocError>
    ensures { IfOk result (λ v. variable_forms v.items
        ≡ map flat_variable (flat_map state_variables_form groups.items)) }
{
    let mut state = Vec::new(alloc);
    for group in groups {
        state.push(flat_variables(alloc, group)?)?;
    }
    Ok(state)
}

/// Steps of named variables.
fn flat_steps(alloc: Global, steps: Vec<Step>) -> Result<Vec<flat::Step>, AllocError>
    ensures { IfOk result (λ v. map flat.step_form v.items
        ≡ map flat_step_form (map step_form steps.items)) }
{
    let mut flat_steps = Vec::new(alloc);
    for step in steps {
        flat_steps.push(flat_step(alloc, step)?)?;
    }
    Ok(flat_steps)
}

/// Properties without quantifiers over formulas.
fn flat_properties(
    alloc: Global,
    properties: Vec<Property>,
) -> Result<Vec<flat::Property>, AllocError>
    ensures { IfOk result (λ v. map flat.property_form v.items
        ≡ map flat_property (map property_form properties.items)) }
{
    let mut flat_properties = Vec::new(alloc);
    for property in properties {
        let formula = flat_formula(alloc, property.formula)?;
        flat_properties.push(flat::Property {
            name: property.name,
            formula,
        })?;
    }
    Ok(flat_properties)
}

/// A protocol without what flat models don't have.
fn flat_model(alloc: Global, protocol: Protocol) -> Result<Model, AllocError>
    ensures { IfOk result (λ m. flat.model_form m ≡ flat_form (protocol_form protocol)) }
{
    let state = flat_state(alloc, protocol.state)?;
    let steps = flat_steps(alloc, protocol.steps)?;
    let properties = flat_properties(alloc, protocol.properties)?;
    Ok(Model {
        sorts: protocol.sorts,
        ranges: protocol.ranges,
        state,
        steps,
        initial: protocol.initial,
        properties,
    })
}

/// The flat model that a protocol is where nothing in it is unfolded: word for word, places
/// included.
///
/// # Errors
/// Memory was refused.
pub fn plain_model(alloc: Global, protocol: Protocol) -> Result<Model, AllocError>
    requires { is_plain_protocol (protocol_form protocol) ≡ true }
    ensures words { IfOk result (λ m. protocol_form protocol ≡ plain_form (flat.model_form m)) }
    ensures meaning { IfOk result (λ m. protocol_of protocol ≡ plain (model_of m)) }
{
    flat_model(alloc, protocol)
}
