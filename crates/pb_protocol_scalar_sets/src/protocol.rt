//! Whether a protocol and a formula are the same where elements are permuted.

ghost use Rattle.std.specs.Prelude.{◌≡◌, ◌++◌, List, [], map, reverse, IfOk};
ghost use Rattle.std.specs.List.{list_all};
ghost use Rattle.pb_base_values.specs.Carrier.{contains};
ghost use Rattle.pb_text_meaning.specs.Sorts.{carrier_of};
ghost use Rattle.pb_protocol_tree.specs.Form.{formula_form};
ghost use Rattle.pb_protocol_meaning.specs.Syntax.{StateVariable};
ghost use Rattle.pb_protocol_meaning.specs.Erase.{erased_formula, protocol_of};
ghost use Rattle.pb_protocol_symmetry.specs.ProtocolTest.{formula_has_kinds, is_symmetric};
ghost use Rattle.pb_protocol_symmetry.specs.ProtocolTest.{signatures_in};
ghost use Rattle.pb_protocol_symmetry.specs.States.{signature_of};
ghost use Rattle.pb_protocol_scalar_sets.specs.Sorts.{spec_of};
ghost use Rattle.pb_protocol_scalar_sets.specs.Symmetric.{are_declared, are_fit, has_values};
ghost use Rattle.pb_protocol_scalar_sets.specs.Symmetric.{are_apart, have_values, is_new, is_same};
ghost use Rattle.pb_protocol_scalar_sets.specs.Tested.{are_defined_in};
ghost use Rattle.pb_protocol_scalar_sets.specs.View.{signature_said, variable_said};

use crate::carrier::carrier_of;
use crate::declaration::{definition_signatures, state_signatures};
use crate::formula::{Readings, formula_fits};
use crate::scalar_set::ScalarSet;
use crate::scope::Around;
use crate::signature::{Known, Signature};
use crate::step::steps_fit;
use crate::term::Context;
use crate::variable::Variable;
use pb_protocol_tree::{Formula, Protocol};
use std::alloc::{AllocError, Global};

/// Whether what may be moved are elements of the sort.
fn are_elements(set: &ScalarSet<'_>) -> bool
    ensures { result ≡ list_all
        (contains (carrier_of (spec_of set.now.protocol.now) set.now.sort.now)) set.now.moved.now }
{
    let carrier = carrier_of(set.protocol, set.sort);
    for element in set.moved {
        if !carrier.contains(i128::from(*element)) {
            return false;
        }
    }
    true
}

/// Whether none of these has the name.
fn is_new(name: &str, signatures: &[Signature<'_>]) -> bool
    ensures { result ≡ is_new name.now (map signature_said signatures.now) }
{
    for signature in signatures {
        if name == signature.name {
            return false;
        }
    }
    true
}

/// Whether each has a name of its own.
fn are_apart(signatures: &[Signature<'_>]) -> bool
    ensures { result ≡ are_apart (map signature_said signatures.now) }
{
    for (place, signature) in signatures.iter().enumerate() {
        if !is_new(signature.name, &signatures[place + 1..]) {
            return false;
        }
    }
    true
}

/// Whether the sort of each of these variables has a value.
fn has_values(protocol: &Protocol, variables: &[Variable<'_>]) -> bool
    ensures { result ≡ has_values (spec_of protocol.now) (map variable_said variables.now) }
{
    for variable in variables {
        if !carrier_of(protocol, variable.sort).has_value() {
            return false;
        }
    }
    true
}

/// Whether the sort of each index has a value.
fn have_values(protocol: &Protocol, signatures: &[Signature<'_>]) -> bool
    ensures { result ≡ list_all (have_values (spec_of protocol.now))
        (map signature_said signatures.now) }
{
    for signature in signatures {
        if !has_values(protocol, &signature.parameters) {
            return false;
        }
    }
    true
}

/// Whether elements and state variables are declared as they must be.
fn are_declared(set: &ScalarSet<'_>, state: &[Signature<'_>]) -> bool
    ensures { result ≡ are_declared set.now (map signature_said state.now) }
{
    are_elements(set) && are_apart(state) && have_values(set.protocol, state)
}

/// Whether each definition has a name of its own where there is no state.
fn are_new_at_start(alloc: Global, set: &ScalarSet<'_>) -> Result<bool, AllocError>
    ensures { IfOk result (λ b. b
        ≡ are_defined_in set.now [] (protocol_of set.now.protocol.now).definitions) }
{
    let definitions = definition_signatures(alloc, set, &[])?;
    Ok(definitions.are_new)
}

/// Whether the steps are the same where elements are permuted.
fn are_fit(
    alloc: Global,
    set: &ScalarSet<'_>,
    state: &[Signature<'_>],
    definitions: &[Signature<'_>],
) -> Result<bool, AllocError>
    ensures { (ys : List StateVariable)
        → map signature_said state.now ≡ map (signature_of set.now.sort.now) ys
        → IfOk result (λ b. b ≡ are_fit set.now ys
        (reverse (map signature_said definitions.now) ++ map signature_said state.now)) }
{
    let known = Known { state, definitions };
    let context = Context { set: *set, known };
    Ok(steps_fit(alloc, &context, &set.protocol.steps)?)
}

/// Whether a protocol is the same where elements of a set are permuted: a test on its syntax, which
/// may refuse what is symmetric. Whether what may be moved are elements of the sort, each name is
/// declared once, each index has values, and steps are of the kinds of what they assign to.
///
/// # Errors
/// Memory was refused.
pub fn is_symmetric(alloc: Global, set: &ScalarSet<'_>) -> Result<bool, AllocError>
    ensures { IfOk result (λ answer. answer ≡ is_symmetric
        (protocol_of set.now.protocol.now) set.now.sort.now set.now.moved.now) }
{
    let state = state_signatures(alloc, set)?;
    if !are_declared(set, &state) {
        return Ok(false);
    }
    let definitions = definition_signatures(alloc, set, &state)?;
    if !definitions.are_new {
        return Ok(false);
    }
    let are_new_at_start = are_new_at_start(alloc, set)?;
    if !are_new_at_start {
        return Ok(false);
    }
    Ok(are_fit(alloc, set, &state, &definitions.signatures)?)
}

/// Whether a formula is the same, by what may be named at states and where there is no state.
fn is_same(
    set: &ScalarSet<'_>,
    state: &[Signature<'_>],
    at_states: &[Signature<'_>],
    at_start: &[Signature<'_>],
    formula: &Formula,
) -> bool
    ensures { result ≡ is_same set.now
        (reverse (map signature_said at_states.now) ++ map signature_said state.now)
        (reverse (map signature_said at_start.now) ++ [])
        (erased_formula (formula_form formula.now)) }
{
    let at_states = Known {
        state,
        definitions: at_states,
    };
    let at_start = Known::at_start(at_start);
    let readings = Readings {
        set: *set,
        at_states,
        at_start,
    };
    formula_fits(&readings, &Around::Outermost, formula)
}

/// Whether a formula is the same where elements of a set are permuted: a test on its syntax, which
/// may refuse what is the same. It is of a protocol that passes its own test.
///
/// # Errors
/// Memory was refused.
pub fn formula_has_kinds(
    alloc: Global,
    set: &ScalarSet<'_>,
    formula: &Formula,
) -> Result<bool, AllocError>
    ensures { IfOk result (λ answer. let m = protocol_of set.now.protocol.now in
        let sort = set.now.sort.now in let M = set.now.moved.now in
        answer ≡ formula_has_kinds m sort M (signatures_in m sort M) []
        (erased_formula (formula_form formula.now))) }
{
    let state = state_signatures(alloc, set)?;
    let at_states = definition_signatures(alloc, set, &state)?;
    let at_start = definition_signatures(alloc, set, &[])?;
    let at_states = &at_states.signatures;
    Ok(is_same(set, &state, at_states, &at_start.signatures, formula))
}
