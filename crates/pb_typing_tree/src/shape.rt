//! What is known of a data term's values: their kind, and the interval of whole numbers.

use pb_base_values::Interval;

/// Kind and interval together.
#[derive(Clone, Copy, Debug, PartialEq, Eq)]
pub enum Shape {
    /// False and true.
    Truths,
    /// The enumerators of the struct with the number `sort` among the structs in declared order,
    /// `count` in number.
    Places { sort: u8, count: u8 },
    /// The whole numbers of an interval.
    Wholes(Interval),
}
