//! What the text of a model says beside its protocol: constants, and sorts of whole numbers by
//! their bounds.
//!
//! Neither is a part of a protocol: each is settled once the text is read, and a protocol is left
//! in which a constant is a definition and such a sort has a range.

use crate::protocol::Protocol;
use pb_text_tree::{Argument, Name};

/// A name for a whole number, with the term whose value it is.
#[derive(Drop)]
pub struct Constant {
    pub name: Name,
    pub value: Argument,
}

/// The least and the greatest value of a sort that is declared by them, as `sort S = 0 .. n - 1`.
/// Its declaration is that of an alias of `Int`.
#[derive(Drop)]
pub struct Bounds {
    pub sort: Name,
    pub low: Argument,
    pub high: Argument,
}

/// The text of a model: a protocol, with the constants that its terms may name and the bounds of
/// its sorts, each in the order of the text.
#[derive(Drop)]
pub struct ModelText {
    pub constants: Vec<Constant>,
    pub bounds: Vec<Bounds>,
    pub protocol: Protocol,
}
