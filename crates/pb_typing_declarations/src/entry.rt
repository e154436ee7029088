//! Declared names, each with its value.

use pb_text_tree::Place;

/// A declared name, where it stands, and what is known of it.
#[derive(Clone, Copy)]
pub(crate) struct Entry<'a, V> {
    pub name: &'a str,
    pub place: Place,
    pub value: V,
}
