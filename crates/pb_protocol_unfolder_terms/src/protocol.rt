//! What terms of a protocol are unfolded by.

ghost use Rattle.std.specs.Prelude.{◌≡◌, ◌++◌, map, flat_map, IfOk, OnOk};
ghost use Rattle.pb_protocol_tree.specs.Form.{definition_form, protocol_form, state_variables_form};
ghost use Rattle.pb_protocol_meaning.specs.Erase.{erased_definition, erased_state_variable};
ghost use Rattle.pb_protocol_meaning.specs.Erase.{protocol_of};
ghost use Rattle.pb_protocol_unfolder_terms.specs.Contexts.{definition_of, state_variable_of, IsContext};
ghost use Rattle.pb_protocol_unfolder_terms.specs.Contexts.{without_state};
ghost use Rattle.pb_protocol_unfolder_terms.specs.Tells.{placed_term, surroundings_in};
ghost use Rattle.pb_protocol_unfolder_terms.specs.TermFaults.{surroundings_at_start, surroundings_of};
ghost use Rattle.pb_protocol_unfolder_terms.specs.TermFaults.{term_of_definition};

use crate::context::{Context, Definition, StateVariable};
use crate::meant::definition_counts;
use crate::variables::variables_of;
use pb_protocol_tree as tree;
use std::alloc::{AllocError, Global};

fn push_group<'a>(
    alloc: Global,
    variables: &mut Vec<StateVariable<'a>>,
    group: &'a tree::StateVariables,
) -> Result<(), AllocError>
    ensures { OnOk result (map state_variable_of variables.new.items
        ≡ map state_variable_of variables.old.items
        ++ map erased_state_variable (state_variables_form group.now)) }
{
    for variable in &group.variables {
        let indices = variables_of(alloc, &variable.indices)?;
        variables.push(StateVariable {
            name: &variable.name,
            indices,
            sort: group.sort.text.as_str(),
        })?;
    }
    Ok(())
}

fn state_variables(
    alloc: Global,
    groups: &[tree::StateVariables],
) -> Result<Vec<StateVariable<'_>>, AllocError>
    ensures { IfOk result (λ v. map state_variable_of v.items
        ≡ map erased_state_variable (flat_map state_variables_form groups.now)) }
{
    let mut variables = Vec::new(alloc);
    for group in groups {
        push_group(alloc, &mut variables, group)?;
    }
    Ok(variables)
}

fn definitions(
    alloc: Global,
    declared: &[tree::Definition],
) -> Result<Vec<Definition<'_>>, AllocError>
    ensures definitions { IfOk result (λ v. map definition_of v.items
        ≡ map erased_definition (map definition_form declared.now)) }
    ensures terms { IfOk result (λ v. map placed_term v.items
        ≡ map term_of_definition (map definition_form declared.now)) }
{
    let mut definitions = Vec::new(alloc);
    for definition in declared {
        let parameters = variables_of(alloc, &definition.parameters)?;
        definitions.push(Definition {
            name: definition.name.text.as_str(),
            parameters,
            term: &definition.term,
        })?;
    }
    Ok(definitions)
}

impl<'a> Context<'a> {
    /// What the terms of a protocol's steps and formulas are unfolded by.
    ///
    /// # Errors
    /// Memory was refused.
    pub fn new(alloc: Global, protocol: &'a tree::Protocol) -> Result<Context<'a>, AllocError>
        ensures context { IfOk result (IsContext (protocol_of protocol.now)) }
        ensures surroundings { IfOk result
            (λ c. surroundings_in c ≡ surroundings_of (protocol_form protocol.now)) }
    {
        let variables = state_variables(alloc, &protocol.state)?;
        let definitions = definitions(alloc, &protocol.definitions)?;
        let counts = definition_counts(alloc, &definitions)?;
        Ok(Context {
            alloc,
            declarations: &protocol.sorts,
            ranges: &protocol.ranges,
            variables,
            definitions,
            counts,
        })
    }

    /// What terms of the initial state are unfolded by, and values in sets of steps: definitions,
    /// and no state variable.
    ///
    /// # Errors
    /// Memory was refused.
    pub fn at_start(alloc: Global, protocol: &'a tree::Protocol) -> Result<Context<'a>, AllocError>
        ensures context { IfOk result (IsContext (without_state (protocol_of protocol.now))) }
        ensures surroundings { IfOk result
            (λ c. surroundings_in c ≡ surroundings_at_start (protocol_form protocol.now)) }
    {
        let definitions = definitions(alloc, &protocol.definitions)?;
        let counts = definition_counts(alloc, &definitions)?;
        Ok(Context {
            alloc,
            declarations: &protocol.sorts,
            ranges: &protocol.ranges,
            variables: Vec::new(alloc),
            definitions,
            counts,
        })
    }
}
