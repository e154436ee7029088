//! What a protocol declares, as terms name it.

ghost use Rattle.std.specs.Prelude.{◌≡◌, ◌++◌, map, reverse, IfOk, OnOk};
ghost use Rattle.pb_protocol_tree.specs.Form.{definition_form, state_variable_form};
ghost use Rattle.pb_protocol_tree.specs.Form.{state_variables_form};
ghost use Rattle.pb_protocol_meaning.specs.Erase.{erased_definition, erased_state_variable};
ghost use Rattle.pb_protocol_meaning.specs.Erase.{protocol_of};
ghost use Rattle.pb_protocol_symmetry.specs.ProtocolTest.{is_unknown};
ghost use Rattle.pb_protocol_symmetry.specs.States.{signature_of};
ghost use Rattle.pb_protocol_scalar_sets.specs.Tested.{are_defined_in, tested_in};
ghost use Rattle.pb_protocol_scalar_sets.specs.Tested.{tested_signature_in};
ghost use Rattle.pb_protocol_scalar_sets.specs.View.{known_said, signature_said};

use crate::kind::kind_of;
use crate::scalar_set::ScalarSet;
use crate::scope::Around;
use crate::signature::{Known, Signature};
use crate::term::{Context, kind_in};
use crate::variable::variables_of;
use pb_protocol_tree::{Definition, StateVariable, StateVariables};
use pb_text_tree::Name;
use std::alloc::{AllocError, Global};

/// A state variable whose values are of a sort.
fn state_signature<'a>(
    alloc: Global,
    sort: &str,
    variable: &'a StateVariable,
    values: &'a Name,
) -> Result<Signature<'a>, AllocError>
    ensures { IfOk result (λ s. signature_said s ≡ signature_of sort.now
        (erased_state_variable (state_variable_form values.now variable.now))) }
{
    let parameters = variables_of(alloc, &variable.indices)?;
    let name = variable.name.text.as_str();
    let kind = Some(kind_of(sort, &values.text));
    Ok(Signature {
        name,
        parameters,
        kind,
    })
}

fn push_group<'a>(
    signatures: &mut Vec<Signature<'a>>,
    alloc: Global,
    sort: &str,
    group: &'a StateVariables,
) -> Result<(), AllocError>
    ensures { OnOk result (map signature_said signatures.new.items
        ≡ map signature_said signatures.old.items ++ map (signature_of sort.now)
        (map erased_state_variable (state_variables_form group.now))) }
{
    for variable in &group.variables {
        signatures.push(state_signature(alloc, sort, variable, &group.sort)?)?;
    }
    Ok(())
}

/// The state variables, in order.
///
/// # Errors
/// Memory was refused.
pub(crate) fn state_signatures<'a>(
    alloc: Global,
    set: &ScalarSet<'a>,
) -> Result<Vec<Signature<'a>>, AllocError>
    ensures { IfOk result (λ v. map signature_said v.items
        ≡ map (signature_of set.now.sort.now) (protocol_of set.now.protocol.now).variables) }
{
    let mut signatures = Vec::new(alloc);
    for group in &set.protocol.state {
        push_group(&mut signatures, alloc, set.sort, group)?;
    }
    Ok(signatures)
}

/// A definition, given the state variables and the definitions before it.
fn tested_signature<'a>(
    alloc: Global,
    set: &ScalarSet<'_>,
    state: &[Signature<'_>],
    before: &[Signature<'_>],
    definition: &'a Definition,
) -> Result<Signature<'a>, AllocError>
    ensures { IfOk result (λ s. signature_said s ≡ tested_signature_in set.now
        (reverse (map signature_said before.now) ++ map signature_said state.now)
        (erased_definition (definition_form definition.now))) }
{
    let known = Known {
        state,
        definitions: before,
    };
    let context = Context { set: *set, known };
    let outermost = Around::Outermost;
    let around = Around::Variables(&definition.parameters, &outermost);
    let kind = kind_in(&context, &around, &definition.term);
    let parameters = variables_of(alloc, &definition.parameters)?;
    let name = definition.name.text.as_str();
    Ok(Signature {
        name,
        parameters,
        kind,
    })
}

/// Whether no state variable and no definition has the name.
fn is_unknown(state: &[Signature<'_>], definitions: &[Signature<'_>], name: &str) -> bool
    ensures { result ≡ is_unknown
        (reverse (map signature_said definitions.now) ++ map signature_said state.now) name.now }
{
    let known = Known { state, definitions };
    match known.called(name) {
        Some(_) => false,
        None => true,
    }
}

/// The definitions of a protocol, in order.
#[derive(Drop)]
pub(crate) struct Definitions<'a> {
    pub signatures: Vec<Signature<'a>>,
    /// Whether each has a name that no state variable and no definition before it has.
    pub are_new: bool,
}

/// The definitions, each given these state variables and the definitions before it.
///
/// # Errors
/// Memory was refused.
pub(crate) fn definition_signatures<'a>(
    alloc: Global,
    set: &ScalarSet<'a>,
    state: &[Signature<'_>],
) -> Result<Definitions<'a>, AllocError>
    ensures signatures { IfOk result (λ d. reverse (map signature_said d.signatures.items)
        ++ map signature_said state.now
        ≡ tested_in set.now (map signature_said state.now)
        (protocol_of set.now.protocol.now).definitions) }
    ensures new { IfOk result (λ d. d.are_new
        ≡ are_defined_in set.now (map signature_said state.now)
        (protocol_of set.now.protocol.now).definitions) }
{
    let mut signatures = Vec::new(alloc);
    let mut are_new = true;
    for definition in &set.protocol.definitions {
        let is_new = is_unknown(state, &signatures, &definition.name.text);
        are_new = are_new & is_new;
        let signature = tested_signature(alloc, set, state, &signatures, definition)?;
        signatures.push(signature)?;
    }
    Ok(Definitions {
        signatures,
        are_new,
    })
}
