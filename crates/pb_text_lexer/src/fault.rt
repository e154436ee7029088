//! Why reading stops.

use crate::kind::Kind;
use pb_base::{Fault, OrMemory};
use pb_text_tree::Place;

/// What a reader finds wrong with a token.
#[derive(Clone, Copy, Debug, PartialEq, Eq)]
pub enum ReadingRule {
    /// No text of the grammar goes on with this token.
    Unexpected,
    /// The token goes past a limit of nesting or of operators.
    Limit,
}

/// A token that can't be read: the rule that it breaks, its kind and its place.
#[derive(Clone, Copy, Debug)]
pub struct Refusal {
    pub rule: ReadingRule,
    pub kind: Kind,
    pub place: Place,
}

impl Fault for Refusal {}

/// Why reading stops where memory is asked for: a token is refused, or memory ran out. What asks
/// for none has the refusal alone as its error.
pub type ReadingError = OrMemory<Refusal>;
