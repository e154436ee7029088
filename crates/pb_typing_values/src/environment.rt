//! What the truth of a formula depends on, besides its slots.

ghost use Rattle.std.specs.Prelude.{◌≡◌, false, slice_index_or};

use pb_sorts::Layout;

/// An environment (Groote and Willemse 2005): a truth for each instance, at its number. An instance
/// whose number is past the end is false, so that where none is true the list may be empty.
#[derive(Clone, Copy)]
pub struct Environment<'a> {
    pub layout: &'a Layout,
    pub truths: &'a [bool],
}

impl Environment<'_> {
    /// The truth at an instance's number.
    pub(crate) fn truth(&self, number: u64) -> bool
        ensures { result ≡ slice_index_or self.now.truths.now number false }
    {
        self.truths.get(number as usize).copied().unwrap_or(false)
    }
}
