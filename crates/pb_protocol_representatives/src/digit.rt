//! Digits of numbers in mixed radix, by the sorts of their values.

ghost use Rattle.std.specs.Prelude.{◌≡◌, IfSome};
ghost use Rattle.pb_protocol_scalar_sets.specs.Sorts.{spec_of};
ghost use Rattle.pb_protocol_representatives.specs.Digits.{combinations_of, digit_of};

use pb_protocol_scalar_sets::{ScalarSet, carrier_of};

/// A digit with a value for each element of a sort, and whether elements of it are exchanged.
#[derive(Clone, Copy)]
pub(crate) struct Digit {
    pub size: u64,
    pub is_element: bool,
}

/// The digit of a sort's values.
pub(crate) fn digit_of(set: &ScalarSet<'_>, sort: &str) -> Digit
    ensures { result ≡ digit_of (spec_of set.now.protocol.now) set.now.sort.now sort.now }
{
    let size = carrier_of(set.protocol, sort).count();
    Digit {
        size,
        is_element: sort == set.sort,
    }
}

/// How many numbers digits have, if 64 bits hold it.
pub(crate) fn combinations_of(digits: &[Digit]) -> Option<u64>
    ensures { IfSome result (λ count. count ≡ combinations_of digits.now) }
{
    let mut count: u64 = 1;
    for digit in digits {
        count = count.checked_mul(digit.size)?;
    }
    Some(count)
}
