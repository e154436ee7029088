//! The kinds of enumerators.

ghost use Rattle.std.specs.Prelude.{◌≡◌, ◌&&◌, not};
ghost use Rattle.std.specs.List.{list_any};
ghost use Rattle.pb_base_values.specs.Carrier.{contains};
ghost use Rattle.pb_text_meaning.specs.Sorts as sorts;
ghost use Rattle.pb_text_meaning.specs.Sorts.{declared, place_from};
ghost use Rattle.pb_protocol_symmetry.specs.Kinds.{enumerator_value};
ghost use Rattle.pb_protocol_symmetry.specs.Test.{enumerator_kind, has_enumerator};
ghost use Rattle.pb_protocol_scalar_sets.specs.Lines.{enumerators_of};
ghost use Rattle.pb_protocol_scalar_sets.specs.Sorts.{declarations_in, enumerators_in, is_named};
ghost use Rattle.pb_protocol_scalar_sets.specs.Sorts.{spec_of};
ghost use Rattle.pb_protocol_scalar_sets.specs.View.{known_kind};

use crate::carrier::{carrier_of, declared};
use crate::kind::Kind;
use crate::scalar_set::ScalarSet;
use pb_protocol_tree::Protocol;
use pb_text_tree::{Enumerator, Sort, SortDeclaration};

/// The place of the enumerator of a name among these.
fn place_among(enumerators: &[Enumerator], name: &str) -> Option<usize>
    ensures { result ≡ place_from 0 (is_named name.now) (enumerators_in enumerators.now) }
{
    for (place, enumerator) in enumerators.iter().enumerate() {
        if enumerator.name.text.as_str() == name {
            return Some(place);
        }
    }
    None
}

/// The place of the first enumerator of a name, over all structs.
fn place_in(declarations: &[SortDeclaration], name: &str) -> Option<usize>
    ensures { result
        ≡ sorts.place_in (is_named name.now) (declarations_in declarations.now) }
{
    for declaration in declarations {
        if let Sort::Struct(enumerators) = &declaration.sort {
            if let Some(place) = place_among(enumerators, name) {
                return Some(place);
            }
        }
    }
    None
}

/// Whether one of these numbers is the value.
fn is_among(numbers: &[i32], value: i128) -> bool
    ensures { result ≡ contains numbers.now value }
{
    for number in numbers {
        if i128::from(*number) == value {
            return true;
        }
    }
    false
}

/// The enumerators of a sort, of which a range has none.
pub(crate) fn enumerators<'a>(protocol: &'a Protocol, sort: &str) -> &'a [Enumerator]
    ensures { enumerators_in result.now
        ≡ enumerators_of (declared (spec_of protocol.now).sorts sort.now) }
{
    match declared(&protocol.sorts, sort) {
        Some(Sort::Struct(enumerators)) => enumerators,
        Some(Sort::Alias(_)) | None => &[],
    }
}

/// Whether one of these enumerators has the name.
fn is_any_named(enumerators: &[Enumerator], name: &str) -> bool
    ensures { result ≡ list_any (is_named name.now) (enumerators_in enumerators.now) }
{
    for enumerator in enumerators {
        if enumerator.name.text.as_str() == name {
            return true;
        }
    }
    false
}

/// Whether a set's sort has an enumerator of this name.
fn has_enumerator(set: &ScalarSet<'_>, name: &str) -> bool
    ensures { result ≡ has_enumerator
        (declared (spec_of set.now.protocol.now).sorts set.now.sort.now) name.now }
{
    match declared(&set.protocol.sorts, set.sort) {
        Some(Sort::Struct(enumerators)) => is_any_named(enumerators, name),
        Some(Sort::Alias(_)) | None => false,
    }
}

/// The value of an enumerator, and 0 where there is none of the name.
fn enumerator_value(set: &ScalarSet<'_>, name: &str) -> i128
    ensures { result ≡ enumerator_value (spec_of set.now.protocol.now) name.now }
{
    let place = place_in(&set.protocol.sorts, name).unwrap_or(0);
    place as i128
}

/// Whether a value is an element of the set's sort that isn't moved.
fn stays(set: &ScalarSet<'_>, value: i128) -> bool
    ensures { result ≡ (not (contains set.now.moved.now value) && contains
        (sorts.carrier_of (spec_of set.now.protocol.now) set.now.sort.now) value) }
{
    !is_among(set.moved, value) && carrier_of(set.protocol, set.sort).contains(value)
}

/// The kind of a name that is an enumerator: one of the set's sort is an element only where
/// it isn't moved.
pub(crate) fn enumerator_kind(set: &ScalarSet<'_>, name: &str) -> Option<Kind>
    ensures { known_kind result ≡ enumerator_kind (spec_of set.now.protocol.now) set.now.sort.now
        set.now.moved.now name.now }
{
    if !has_enumerator(set, name) {
        return Some(Kind::Plain);
    }
    if stays(set, enumerator_value(set, name)) {
        return Some(Kind::Element);
    }
    None
}
