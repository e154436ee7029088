//! The place of a tuple among all tuples of its carriers, the last value running fastest, and back.
ghost use Rattle.std.specs.Prelude.{◌≡◌, ◌≤◌, ◌<◌, ◌↔◌, length, map, Some, IsSome, IfSome, IsTrue};
ghost use Rattle.std.specs.List.{slice_get};
ghost use Rattle.pb_base_values.specs.Carrier.{is_within, tuples, tuple_count};
ghost use Rattle.pb_sorts.specs.Carrier.{values_of};

use crate::carrier::Carrier;
use crate::counting::MAX_NUMBERS;
use crate::instance::Tuple;
use pb_base::MAX_PARAMETERS;
use std::alloc::Global;

/// How many tuples carriers have; none where these are more than a layout may have.
pub fn count_tuples(carriers: &[Carrier]) -> Option<u64>
    ensures fits { IsSome result ↔ (tuple_count (map values_of carriers.now) ≤ MAX_NUMBERS) }
    ensures count { IfSome result (λ count. count ≡ tuple_count (map values_of carriers.now)) }
{
    let mut count: u64 = 1;
    for carrier in carriers {
        let product = count as u128 * carrier.size() as u128;
        if product > MAX_NUMBERS as u128 {
            return None;
        }
        count = product as u64;
    }
    Some(count)
}

/// The place of `values` among the tuples of `carriers`; none where they are no such tuple.
pub(crate) fn place_of_tuple(carriers: &[Carrier], values: &[i64]) -> Option<u64>
    requires { tuple_count (map values_of carriers.now) ≤ MAX_NUMBERS }
    ensures exists { IsSome result ↔ IsTrue (is_within (map values_of carriers.now) values.now) }
    ensures place { IfSome result (λ place. slice_get (tuples (map values_of carriers.now)) place
        ≡ Some values.now) }
{
    if carriers.len() != values.len() {
        return None;
    }
    let mut place: u64 = 0;
    for (carrier, value) in carriers.iter().zip(values) {
        place = place * carrier.size() + carrier.place(*value)?;
    }
    Some(place)
}

/// The tuple at a place among the `count` tuples of `carriers`.
pub(crate) fn tuple_at(alloc: Global, carriers: &[Carrier], count: u64, place: u64) -> Tuple
    requires few { length carriers.now ≤ MAX_PARAMETERS }
    requires count { count ≡ tuple_count (map values_of carriers.now) }
    requires below { place < count }
    ensures { slice_get (tuples (map values_of carriers.now)) place ≡ Some result.items }
{
    let mut values = Tuple::new(alloc);
    let mut weight = count;
    let mut rest = place;
    for carrier in carriers {
        weight /= carrier.size();
        values.push_reserved(carrier.value(rest / weight));
        rest %= weight;
    }
    values
}
