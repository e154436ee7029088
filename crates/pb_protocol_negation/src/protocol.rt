//! Protocols whose properties are negated.

ghost use Rattle.std.specs.Prelude.{◌≡◌, map, IfOk};
ghost use Rattle.pb_protocol_tree.specs.Form.{property_form, protocol_form};
ghost use Rattle.pb_protocol_negation.specs.Negated.{negated_property, negated_protocol};

use crate::formula::negated;
use pb_protocol_tree::{Property, Protocol};
use std::alloc::{AllocError, Global};

fn negated_properties(alloc: Global, properties: Vec<Property>) -> Result<Vec<Property>, AllocError>
    ensures { IfOk result (λ v. map property_form v.items
        ≡ map negated_property (map property_form properties.items)) }
{
    let mut negations = Vec::new(alloc);
    for property in properties {
        let formula = negated(alloc, property.formula)?;
        negations.push(Property {
            name: property.name,
            formula,
        })?;
    }
    Ok(negations)
}

/// The protocol with each property's formula negated, by the same name; all else is kept.
///
/// # Errors
/// Memory was refused.
pub fn negate_properties(alloc: Global, protocol: Protocol) -> Result<Protocol, AllocError>
    ensures { IfOk result (λ p. protocol_form p ≡ negated_protocol (protocol_form protocol)) }
{
    let properties = negated_properties(alloc, protocol.properties)?;
    Ok(Protocol {
        sorts: protocol.sorts,
        ranges: protocol.ranges,
        state: protocol.state,
        definitions: protocol.definitions,
        steps: protocol.steps,
        initial: protocol.initial,
        properties,
    })
}
