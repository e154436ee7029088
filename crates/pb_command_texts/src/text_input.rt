//! Texts, as calls take them.

use crate::short_input::ShortInput;
use pb_sorts::Counting;

/// An input that is a text, and which of its instances count against the limit of T12.
#[derive(Clone, Copy)]
pub struct TextInput<'a> {
    pub input: ShortInput<'a>,
    pub counting: Counting,
}
