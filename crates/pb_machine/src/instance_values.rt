//! The values of an instance from its place among those of its equation: the last one runs fastest.
ghost use Rattle.std.specs.Prelude.{◌≡◌, ◌<◌, ◌+◌, ◌*◌, length, map, Some, slice_get};
ghost use Rattle.pb_base_values.specs.Carrier.{tuples, tuple_count};
ghost use Rattle.pb_sorts.specs.Carrier.{values_of};

use pb_sorts::Carrier;

/// The value at a place among those of its carrier.
fn value_at(carrier: &Carrier, place: u64) -> i64
    requires { place < length (values_of carrier.now) }
    ensures { slice_get (values_of carrier.now) place ≡ Some result }
{
    let (least, _) = carrier.bounds();
    least + place as i64
}

/// A number as a multiple of a size and what is left of it. One below the size, as that of the
/// first value always is, isn't divided, since dividing takes as long as many other steps.
fn divided(number: u64, size: u64) -> (u64, u64)
    requires { 0 < size }
    ensures whole { number ≡ result.0 * size + result.1 }
    ensures rest { result.1 < size }
{
    if number < size {
        (0, number)
    } else {
        (number / size, number % size)
    }
}

/// Writes the values at a place among the tuples of their carriers over as many others.
pub(crate) fn write_values(values: &mut [i64], carriers: &[Carrier], place: u64)
    requires one_each { length values.old ≡ length carriers.now }
    requires below { place < tuple_count (map values_of carriers.now) }
    ensures { slice_get (tuples (map values_of carriers.now)) place ≡ Some values.new }
{
    let mut rest = place;
    for index in (0..carriers.len()).rev() {
        let carrier = &carriers[index];
        let (before, last) = divided(rest, carrier.size());
        values[index] = value_at(carrier, last);
        rest = before;
    }
}
