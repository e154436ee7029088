//! Which elements of a sort may be moved.

ghost use Rattle.std.specs.Prelude.{◌≡◌, true, IfOk};
ghost use Rattle.std.specs.List.{list_all};
ghost use Rattle.pb_base_values.specs.Carrier.{contains};
ghost use Rattle.pb_text_meaning.specs.Sorts.{carrier_of};
ghost use Rattle.pb_protocol_scalar_sets.specs.Sorts.{spec_of};

use crate::carrier::carrier_of;
use crate::enumerator::enumerators;
use crate::mention::{in_formula, in_protocol};
use pb_protocol_tree::{Formula, Protocol};
use pb_text_tree::Enumerator;
use std::alloc::{AllocError, Global};

/// How many elements are moved at most. More merge no more states in a time that pays.
pub const MAX_MOVED: usize = 16;

/// Whether the element at a place has a name that is used.
fn is_named(
    protocol: &Protocol,
    formula: &Formula,
    enumerators: &[Enumerator],
    place: usize,
) -> bool {
    match enumerators.get(place) {
        Some(enumerator) => {
            let name = enumerator.name.text.as_str();
            in_protocol(name, protocol) || in_formula(name, formula)
        }
        None => false,
    }
}

/// Elements of a sort that no step, no definition and not the formula names, the first ones.
///
/// # Errors
/// Memory was refused.
pub fn movable_elements(
    alloc: Global,
    protocol: &Protocol,
    sort: &str,
    formula: &Formula,
) -> Result<Vec<i32>, AllocError>
    ensures { IfOk result (λ v. list_all
        (contains (carrier_of (spec_of protocol.now) sort.now)) v.items ≡ true) }
{
    let enumerators = enumerators(protocol, sort);
    let carrier = carrier_of(protocol, sort);
    let mut moved = Vec::new(alloc);
    for place in 0..carrier.count() {
        if moved.len() == MAX_MOVED {
            return Ok(moved);
        }
        let Some(element) = carrier.value(place) else {
            return Ok(moved);
        };
        if !is_named(protocol, formula, enumerators, place as usize) {
            moved.push(element)?;
        }
    }
    Ok(moved)
}
