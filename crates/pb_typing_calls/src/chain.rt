//! The operands of a chain.

use pb_text_tree::Connective;
use pb_typing_tree::Formula;

/// Operands of one connective: a first one, and those behind it.
#[derive(Clone, Copy)]
pub(crate) struct Chain<'a> {
    pub connective: Connective,
    pub first: &'a Formula,
    pub links: &'a [Formula],
}
