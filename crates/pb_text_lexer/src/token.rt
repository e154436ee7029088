//! A token of a text.

use crate::kind::Kind;
use pb_text_tree::Place;

/// A token, with the bytes of its text and the place of the first of them. Where no token stands
/// the text is empty.
#[derive(Clone, Copy)]
pub struct Token<'a> {
    pub kind: Kind,
    pub text: &'a [u8],
    pub place: Place,
}
