//! The elements of a protocol's state variables, with their indices as they are written.

ghost use Rattle.std.specs.Prelude.{◌≡◌, ◌≤◌, ◌+◌, ◌++◌, length, map, IfOk, OnOk};
ghost use Rattle.pb_base.specs.OrMemory.{IfRefused};
ghost use Rattle.pb_protocol_tree.specs.Form.{protocol_form};
ghost use Rattle.pb_protocol_unfolding.specs.Unfolding as definitions;
ghost use Rattle.pb_protocol_whole_steps.specs.View.{name_bytes};
ghost use Rattle.pb_protocol_unfolder_terms.specs.View.{spec_of};
ghost use Rattle.pb_protocol_unfolder_terms.specs.Values.{tuple_of};
ghost use Rattle.pb_protocol_unfolder_steps.specs.Elements.{element_at, flat_element, elements_of_group};
ghost use Rattle.pb_protocol_unfolder_steps.specs.Elements.{elements_of_state, elements_of_variable};
ghost use Rattle.pb_protocol_unfolder_steps.specs.Refusals.{IsPassed, IsPassedIn, element_place};
ghost use Rattle.pb_protocol_unfolder_steps.specs.Refusals.{element_places, each_at, places_of_group};
ghost use Rattle.pb_protocol_unfolder_steps.specs.Refusals.{places_of_state, places_of_variable};
ghost use Rattle.pb_protocol_unfolder_steps.specs.Written.{AreElementsOf};

use crate::fault::StepsError;
use crate::limits::{MAX_ELEMENTS, check_limit};
use crate::sorts::sorts_of;
use crate::tuples::all_tuples;
use pb_protocol_tree::{Protocol, StateVariable, StateVariables};
use pb_protocol_unfolder_terms::{Sorts, Written, element_name};
use pb_text_tree::Name;
use std::alloc::{AllocError, Global};

/// An element of an array with its index, or a state variable of one value.
#[derive(Drop)]
pub struct Element<'a> {
    /// That of the array.
    pub name: &'a Name,
    pub index: Vec<Written<'a>>,
    pub sort: &'a Name,
}

/// Adds the elements of a state variable at these indices.
fn push_at<'a>(
    elements: &mut Vec<Element<'a>>,
    name: &'a Name,
    sort: &'a Name,
    indices: Vec<Vec<Written<'a>>>,
) -> Result<(), AllocError>
    ensures elements { OnOk result (map flat_element elements.new.items
        ≡ map flat_element elements.old.items
        ++ map (element_at name.now sort.now) (map tuple_of indices.entry.items)) }
    ensures places { OnOk result (map element_place elements.new.items
        ≡ map element_place elements.old.items ++ each_at name.now.place indices.entry.items) }
{
    for index in indices {
        elements.push(Element { name, index, sort })?;
    }
    Ok(())
}

/// Adds the elements of a state variable.
fn push_elements<'a>(
    alloc: Global,
    elements: &mut Vec<Element<'a>>,
    sorts: Sorts<'a>,
    variable: &'a StateVariable,
    sort: &'a Name,
) -> Result<(), StepsError>
    ensures elements { OnOk result (map flat_element elements.new.items
        ≡ map flat_element elements.old.items
        ++ elements_of_variable (spec_of sorts.entry) sort.now variable.now) }
    ensures places { OnOk result (map element_place elements.new.items
        ≡ map element_place elements.old.items
        ++ places_of_variable (spec_of sorts.entry) sort.now variable.now) }
    ensures few { OnOk result (length elements.new.items ≤ MAX_ELEMENTS) }
    ensures refused { IfRefused result (IsPassed MAX_ELEMENTS (length elements.old.items
        + length (elements_of_variable (spec_of sorts.entry) sort.now variable.now))
        variable.now.name.place) }
{
    let place = variable.name.place;
    let indices = all_tuples(alloc, sorts, &variable.indices, place)?;
    push_at(elements, &variable.name, sort, indices)?;
    Ok(check_limit(elements.len(), MAX_ELEMENTS, place)?)
}

/// Adds the elements of the state variables of a group.
fn push_group<'a>(
    alloc: Global,
    elements: &mut Vec<Element<'a>>,
    sorts: Sorts<'a>,
    group: &'a StateVariables,
) -> Result<(), StepsError>
    requires few { length elements.old.items ≤ MAX_ELEMENTS }
    ensures elements { OnOk result (map flat_element elements.new.items
        ≡ map flat_element elements.old.items
        ++ elements_of_group (spec_of sorts.entry) group.now) }
    ensures places { OnOk result (map element_place elements.new.items
        ≡ map element_place elements.old.items
        ++ places_of_group (spec_of sorts.entry) group.now) }
    ensures few { OnOk result (length elements.new.items ≤ MAX_ELEMENTS) }
    ensures refused { IfRefused result (IsPassedIn MAX_ELEMENTS
        (map element_place elements.old.items
        ++ places_of_group (spec_of sorts.entry) group.now)) }
{
    for variable in &group.variables {
        push_elements(alloc, elements, sorts, variable, &group.sort)?;
    }
    Ok(())
}

/// The elements of all groups of state variables, in order.
fn elements_of<'a>(
    alloc: Global,
    sorts: Sorts<'a>,
    state: &'a [StateVariables],
) -> Result<Vec<Element<'a>>, StepsError>
    ensures elements { IfOk result
        (λ v. map flat_element v.items ≡ elements_of_state (spec_of sorts.entry) state.now) }
    ensures places { IfOk result
        (λ v. map element_place v.items ≡ places_of_state (spec_of sorts.entry) state.now) }
    ensures few { IfOk result (λ v. length v.items ≤ MAX_ELEMENTS) }
    ensures refused { IfRefused result
        (IsPassedIn MAX_ELEMENTS (places_of_state (spec_of sorts.entry) state.now)) }
{
    let mut elements = Vec::new(alloc);
    for group in state {
        push_group(alloc, &mut elements, sorts, group)?;
    }
    Ok(elements)
}

/// The elements of all state variables of a protocol, in order.
///
/// # Errors
/// There are more than 64 elements (T12, at the name of the state variable that passes the limit),
/// or memory was refused.
pub fn elements<'a>(alloc: Global, protocol: &'a Protocol) -> Result<Vec<Element<'a>>, StepsError>
    ensures elements { IfOk result
        (λ v. AreElementsOf (protocol_form protocol.now) v.items) }
    ensures refused { IfRefused result
        (IsPassedIn MAX_ELEMENTS (element_places (protocol_form protocol.now))) }
{
    elements_of(alloc, sorts_of(protocol), &protocol.state)
}

/// The names of elements in a flat model, each where the array's name stands.
///
/// # Errors
/// Memory was refused.
pub fn element_names(alloc: Global, elements: &[Element<'_>]) -> Result<Vec<Name>, AllocError>
    ensures { IfOk result (λ v. map name_bytes v.items
        ≡ map definitions.name_of (map flat_element elements.now)) }
{
    let mut names = Vec::new(alloc);
    for element in elements {
        names.push(element_name(alloc, element.name, &element.index)?)?;
    }
    Ok(names)
}
