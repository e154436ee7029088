//! State variables, definitions and steps as data and sets of steps name them.

ghost use Rattle.std.specs.Prelude.{◌≡◌, ◌++◌, map, flat_map, string_bytes, IfOk, OnOk};
ghost use Rattle.pb_text_tree.specs.Form.{variable_forms, variables_form};
ghost use Rattle.pb_typing_declarations.specs.Entries.{carrier_shape};
ghost use Rattle.pb_typing_declarations.specs.View.{spec_of};
ghost use Rattle.pb_protocol_tree.specs.Form.{state_variables_form, step_form};
ghost use Rattle.pb_protocol_typing.specs.Signatures.{no_signatures, no_steps, variable_shapes};
ghost use Rattle.pb_protocol_typing.specs.Signatures.{with_entry, with_state, with_steps};
ghost use Rattle.pb_protocol_typing.specs.View.{own_shapes, shapes_in, signature_of};
ghost use Rattle.pb_protocol_typing.specs.View.{signatures_in, state_forms};

use crate::kind::{Kind, sort_kind};
use crate::written_as::WrittenAs;
use pb_protocol_tree::{StateVariable, StateVariables, Step};
use pb_sorts::Carrier;
use pb_text_tree::{Name, Variables};
use pb_typing_declarations::Declarations;
use std::alloc::{AllocError, Global};
use std::collections::HashMap;

/// A state variable or a definition: what its indices or parameters may be, and the kind of its
/// values.
#[derive(Drop)]
pub(crate) struct Signature {
    pub is_state: bool,
    /// A state variable does, and a definition that names what does.
    pub reads_state: bool,
    pub parameters: Vec<Option<Carrier>>,
    pub kind: Kind,
    pub written: WrittenAs,
}

/// What a step's own variables may be, in order.
#[derive(Drop)]
pub(crate) struct OwnVariables {
    pub carriers: Vec<Option<Carrier>>,
}

/// The steps by name.
#[derive(Drop)]
pub(crate) struct Steps<'a> {
    pub table: HashMap<&'a str, OwnVariables>,
}

/// A state variable with the sort of its group.
#[derive(Clone, Copy)]
pub(crate) struct StateEntry<'a> {
    pub variable: &'a StateVariable,
    pub sort: &'a Name,
}

/// The state variables, in order.
pub(crate) fn state_entries(
    alloc: Global,
    groups: &[StateVariables],
) -> Result<Vec<StateEntry<'_>>, AllocError>
    ensures { IfOk result (λ entries. state_forms entries.items
        ≡ flat_map state_variables_form groups.now) }
{
    let mut entries = Vec::new(alloc);
    for group in groups {
        push_group(&mut entries, group)?;
    }
    Ok(entries)
}

fn push_group<'a>(
    entries: &mut Vec<StateEntry<'a>>,
    group: &'a StateVariables,
) -> Result<(), AllocError>
    ensures { OnOk result (state_forms entries.new.items
        ≡ state_forms entries.old.items ++ state_variables_form group.now) }
{
    for variable in &group.variables {
        let sort = &group.sort;
        entries.push(StateEntry { variable, sort })?;
    }
    Ok(())
}

/// What the variables of a list may be, in order.
pub(crate) fn variable_carriers(
    alloc: Global,
    declarations: &Declarations<'_>,
    groups: &[Variables],
) -> Result<Vec<Option<Carrier>>, AllocError>
    ensures { IfOk result (λ carriers. map carrier_shape carriers.items
        ≡ variable_shapes (spec_of declarations.now) (variable_forms groups.now)) }
{
    let mut carriers = Vec::new(alloc);
    for group in groups {
        push_carriers(&mut carriers, declarations, group)?;
    }
    Ok(carriers)
}

fn push_carriers(
    carriers: &mut Vec<Option<Carrier>>,
    declarations: &Declarations<'_>,
    group: &Variables,
) -> Result<(), AllocError>
    ensures { OnOk result (map carrier_shape carriers.new.items
        ≡ map carrier_shape carriers.old.items
        ++ variable_shapes (spec_of declarations.now) (variables_form group.now)) }
{
    let carrier = declarations.carrier(&group.sort.text);
    for name in &group.names {
        carriers.push(carrier)?;
    }
    Ok(())
}

/// Adds a state variable or a definition.
pub(crate) fn insert<'a>(
    table: &mut HashMap<&'a str, Signature>,
    name: &'a Name,
    signature: Signature,
) -> Result<(), AllocError>
    ensures { OnOk result (signatures_in table.new
        ≡ with_entry (string_bytes name.now.text) (signature_of signature)
        (signatures_in table.old)) }
{
    table.insert(name.text.as_str(), signature)?;
    Ok(())
}

/// The state variables by name.
pub(crate) fn state_table<'a>(
    alloc: Global,
    declarations: &Declarations<'_>,
    entries: &[StateEntry<'a>],
) -> Result<HashMap<&'a str, Signature>, AllocError>
    ensures { IfOk result (λ table. signatures_in table
        ≡ with_state (spec_of declarations.now) no_signatures (state_forms entries.now)) }
{
    let mut table = HashMap::new(alloc);
    for entry in entries {
        let parameters = variable_carriers(alloc, declarations, &entry.variable.indices)?;
        let kind = sort_kind(declarations, &entry.sort.text);
        let signature = Signature {
            is_state: true,
            reads_state: true,
            parameters,
            kind,
            written: WrittenAs::Calculated,
        };
        insert(&mut table, &entry.variable.name, signature)?;
    }
    Ok(table)
}

fn insert_step<'a>(
    steps: &mut Steps<'a>,
    name: &'a Name,
    own: OwnVariables,
) -> Result<(), AllocError>
    ensures { OnOk result (shapes_in steps.new
        ≡ with_entry (string_bytes name.now.text) (own_shapes own) (shapes_in steps.old)) }
{
    steps.table.insert(name.text.as_str(), own)?;
    Ok(())
}

/// The steps by name.
pub(crate) fn step_table<'a>(
    alloc: Global,
    declarations: &Declarations<'_>,
    steps: &'a [Step],
) -> Result<Steps<'a>, AllocError>
    ensures { IfOk result (λ table. shapes_in table
        ≡ with_steps (spec_of declarations.now) no_steps (map step_form steps.now)) }
{
    let mut table = Steps {
        table: HashMap::new(alloc),
    };
    for step in steps {
        let carriers = variable_carriers(alloc, declarations, &step.variables)?;
        insert_step(&mut table, &step.name, OwnVariables { carriers })?;
    }
    Ok(table)
}
