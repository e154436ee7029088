//! A sort of a protocol of which elements are to be permuted.

use pb_protocol_tree::Protocol;

/// A sort of a protocol, and those of its elements that may be moved; the others stay.
#[derive(Clone, Copy)]
pub struct ScalarSet<'a> {
    pub protocol: &'a Protocol,
    pub sort: &'a str,
    /// By their values: of a sort with a range the numbers, of a struct the enumerators' places.
    pub moved: &'a [i32],
}
