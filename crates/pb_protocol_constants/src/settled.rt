//! From the text of a model to its protocol.

ghost use Rattle.std.specs.Prelude.{◌≡◌, ◌⊎◌, [], map, Some, IfOk, MatchResult, OnOk};
ghost use Rattle.std.specs.List.{slice_get};
ghost use Rattle.pb_text_tree.specs.declared.place.Place.{Place};
ghost use Rattle.pb_base.specs.OrMemory.{IfFault, IfRefused};
ghost use Rattle.pb_text_tree.specs.Form.{range_form, term_form};
ghost use Rattle.pb_protocol_tree.specs.Form.{bounds_form, constant_form, definition_form};
ghost use Rattle.pb_protocol_tree.specs.Form.{model_text_form, protocol_form};
ghost use Rattle.pb_protocol_constants.specs.Faults.{IsConstantFault, IsConstantsFault};
ghost use Rattle.pb_protocol_constants.specs.Faults.{IsBoundsFault, IsFaultOfSome, IsFaultOfText};
ghost use Rattle.pb_protocol_constants.specs.Faults.{IsSettlingFault, IsTypingFaultIn};
ghost use Rattle.pb_protocol_constants.specs.Hidden.{hidden_faults};
ghost use Rattle.pb_protocol_constants.specs.Rules.{AreAllBounds};
ghost use Rattle.pb_protocol_constants.specs.Settled.{range_of, with_parts};
ghost use Rattle.pb_protocol_typing.specs.Faults.{protocol_faults};
ghost use Rattle.pb_protocol_constants.specs.Settled.{settled, settled_constant, settled_constants};
ghost use Rattle.pb_protocol_constants.specs.Rules.{KeepRules, TextKeepsRules};
ghost use Rattle.pb_protocol_constants.specs.Settled.{HasNoSorts, HasNumber, HasSmallNumbers};
ghost use Rattle.pb_protocol_constants.specs.Settled.{HaveNumbers, settled_definitions};
ghost use Rattle.pb_protocol_constants.specs.Settled.{settled_ranges};

use crate::bound::ranges_of;
use crate::fault::ConstantsError;
use crate::hidden::check_hidden;
use crate::number::number_at;
use crate::valued::{alone, check_alone, definitions_of, value_of};
use pb_protocol_tree::{Bounds, Constant, Definition, ModelText, Protocol};
use pb_text_tree::{Place, Range, copy_name};
use std::alloc::{AllocError, Global};

/// A constant as the definition of a written number.
fn settled_constant(
    alloc: Global,
    constants: &Protocol,
    constant: &Definition,
    place: Place,
) -> Result<Definition, ConstantsError>
    ensures definition { HasNoSorts (protocol_form constants.now) → IfOk result
        (λ d. definition_form d
        ≡ settled_constant (protocol_form constants.now) place (definition_form constant.now)) }
    ensures number { HasNoSorts (protocol_form constants.now) → OnOk result
        (HasNumber (protocol_form constants.now) (term_form constant.now.term)) }
    ensures refused { IfRefused result (IsConstantFault (protocol_form constants.now) place
        (definition_form constant.now)) }
{
    let value = value_of(alloc, constants, place, &constant.term)?;
    let name = copy_name(alloc, &constant.name)?;
    let Ok(term) = number_at(alloc, place, value) else {
        drop(name);
        return Err(ConstantsError::Memory);
    };
    Ok(Definition {
        name,
        parameters: Vec::new(alloc),
        term,
    })
}

/// The place at an index, and any behind the last.
fn place_at(places: &[Place], at: usize) -> Place
    ensures { (p : Place) → slice_get places.now at ≡ Some p → result ≡ p }
{
    match places.get(at) {
        Some(place) => *place,
        None => Place { line: 1, column: 1 },
    }
}

/// All constants as definitions of written numbers, in order.
fn settled_constants(
    alloc: Global,
    constants: &Protocol,
    places: &[Place],
) -> Result<Vec<Definition>, ConstantsError>
    ensures definitions { HasNoSorts (protocol_form constants.now) → IfOk result
        (λ v. map definition_form v.items
        ≡ settled_constants (protocol_form constants.now) places.now) }
    ensures numbers { HasNoSorts (protocol_form constants.now) → OnOk result
        (HaveNumbers (protocol_form constants.now) places.now) }
    ensures refused { IfRefused result
        (IsConstantsFault (protocol_form constants.now) places.now) }
{
    let all = constants.definitions.as_slice();
    let mut settled = Vec::new(alloc);
    for at in 0..all.len().min(places.len()) {
        let place = place_at(places, at);
        let constant = settled_constant(alloc, constants, &all[at], place)?;
        settled.push(constant)?;
    }
    Ok(settled)
}

/// What constants and bounds add to a protocol.
#[derive(Drop)]
struct Parts {
    definitions: Vec<Definition>,
    ranges: Vec<Range>,
}

/// Checks constants as definitions, and that no name of a protocol is theirs.
fn check_constants(
    alloc: Global,
    constants: &Protocol,
    protocol: &Protocol,
) -> Result<(), ConstantsError>
    ensures { MatchResult result
        (λ _. (protocol_faults (protocol_form constants.now) ≡ [])
        × (hidden_faults (protocol_form constants.now).definitions (protocol_form protocol.now)
        ≡ []))
        (λ error. IfFault error (λ fault.
        IsTypingFaultIn (protocol_faults (protocol_form constants.now)) fault
        ⊎ IsTypingFaultIn (hidden_faults (protocol_form constants.now).definitions
        (protocol_form protocol.now)) fault)) }
{
    check_alone(alloc, constants)?;
    check_hidden(alloc, &constants.definitions, protocol)
}

/// Definitions for these constants, and ranges for bounds over them.
fn parts_by(
    alloc: Global,
    constants: &mut Protocol,
    places: &[Place],
    bounds: Vec<Bounds>,
) -> Result<Parts, ConstantsError>
    ensures definitions { HasNoSorts (protocol_form constants.old) → IfOk result
        (λ p. map definition_form p.definitions.items
        ≡ settled_constants (protocol_form constants.old) places.now) }
    ensures ranges { HasNoSorts (protocol_form constants.old) → IfOk result
        (λ p. map range_form p.ranges.items
        ≡ map (range_of (protocol_form constants.old)) (map bounds_form bounds.items)) }
    ensures numbers { HasNoSorts (protocol_form constants.old) → OnOk result
        (HaveNumbers (protocol_form constants.old) places.now) }
    ensures bounds { HasNoSorts (protocol_form constants.old) → OnOk result
        (AreAllBounds (protocol_form constants.old) (map bounds_form bounds.items)) }
    ensures refused { HasNoSorts (protocol_form constants.old) → IfRefused result (λ fault.
        IsConstantsFault (protocol_form constants.old) places.now fault
        ⊎ IsFaultOfSome (IsBoundsFault (protocol_form constants.old))
        (map bounds_form bounds.items) fault) }
{
    let definitions = settled_constants(alloc, constants, places)?;
    match ranges_of(alloc, constants, bounds) {
        Ok(ranges) => Ok(Parts {
            definitions,
            ranges,
        }),
        Err(error) => {
            drop(definitions);
            Err(error)
        }
    }
}

/// Definitions for constants, and ranges for bounds, where no name of the protocol is a constant's.
fn parts_of(
    alloc: Global,
    constants: Vec<Constant>,
    bounds: Vec<Bounds>,
    protocol: &Protocol,
) -> Result<Parts, ConstantsError>
    ensures definitions { IfOk result (λ p. map definition_form p.definitions.items
        ≡ settled_definitions (map constant_form constants.items)) }
    ensures ranges { IfOk result (λ p. map range_form p.ranges.items
        ≡ settled_ranges (map constant_form constants.items) (map bounds_form bounds.items)) }
    ensures rules { OnOk result (KeepRules (map constant_form constants.items)
        (map bounds_form bounds.items) (protocol_form protocol.now)) }
    ensures refused { IfRefused result (IsSettlingFault (map constant_form constants.items)
        (map bounds_form bounds.items) (protocol_form protocol.now)) }
{
    let declared = definitions_of(alloc, constants)?;
    let mut constants = alone(alloc, declared.definitions);
    check_constants(alloc, &constants, protocol)?;
    parts_by(alloc, &mut constants, &declared.places, bounds)
}

/// A protocol with these parts in front of its own.
fn with_parts(protocol: Protocol, parts: Parts) -> Result<Protocol, AllocError>
    ensures { IfOk result (λ m. protocol_form m
        ≡ with_parts (map definition_form parts.definitions.items)
        (map range_form parts.ranges.items) (protocol_form protocol)) }
{
    let mut protocol = protocol;
    let mut parts = parts;
    parts.definitions.append(&mut protocol.definitions)?;
    parts.ranges.append(&mut protocol.ranges)?;
    protocol.definitions = parts.definitions;
    protocol.ranges = parts.ranges;
    Ok(protocol)
}

/// The protocol of a text, with its constants as definitions in front, and with the ranges of sorts
/// that are declared by bounds before those of range lines.
///
/// # Errors
/// `Typing`: T01 at a name in a constant or bound that no constant before has; T02 at the later of
/// two names of which one is a constant's; T04 at an operator, function or argument of the wrong
/// kind, and at the first token of a constant or bound that is no number of 32 bits; T08 at a
/// function with a wrong number of arguments; T11 at the first token of the first of two bounds
/// that aren't in order. `Term`: P04 at a token of a term that is too large. Where several rules
/// fail, any one of them. `Memory` comes only where memory was refused.
pub fn settle(alloc: Global, text: ModelText) -> Result<Protocol, ConstantsError>
    ensures protocol { IfOk result (λ m. protocol_form m ≡ settled (model_text_form text)) }
    ensures rules { OnOk result (TextKeepsRules (model_text_form text)) }
    ensures numbers { OnOk result (HasSmallNumbers (model_text_form text)) }
    ensures refused { IfRefused result (IsFaultOfText (model_text_form text)) }
{
    let ModelText {
        constants,
        bounds,
        protocol,
    } = text;
    match parts_of(alloc, constants, bounds, &protocol) {
        Ok(parts) => Ok(with_parts(protocol, parts)?),
        Err(error) => {
            drop(protocol);
            Err(error)
        }
    }
}
