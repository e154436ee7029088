//! Where the tokens of a row's tree stand.

/// An instance, and where the tokens of its tree stand: their kinds and the numbers that they call,
/// each in a list of its own.
#[derive(Clone, Copy)]
pub struct Entry {
    pub(crate) number: u64,
    pub(crate) first: usize,
    pub(crate) first_call: usize,
    pub(crate) count: u32,
    pub(crate) calls: u32,
}
