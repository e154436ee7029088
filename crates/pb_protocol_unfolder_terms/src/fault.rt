//! Why a term isn't unfolded.

use pb_base::{Fault, OrMemory};
use pb_text_tree::Place;

/// Which rule an unfolded term would break, with the number that a user sees.
#[derive(Clone, Copy, Debug, PartialEq, Eq)]
pub enum UnfoldRule {
    /// P04: the unfolded term has more than 8,192 operators. The place is that of the token that
    /// unfolds: a quantifier, the use of an array or definition, else the operator.
    Operators,
    /// P04: terms and definitions nest too deep. The place is that of the token at which they do.
    Depth,
    /// P04: more than 8,192 values are written out. The place is that of the token that unfolds.
    Values,
    /// T11: an index outside its sort, or not seen to stay in it. The place is that of the index's
    /// first token.
    Index,
}

/// A rule that an unfolded term would break, and the place.
#[derive(Clone, Copy, Debug, PartialEq, Eq)]
pub struct UnfoldFault {
    pub rule: UnfoldRule,
    pub place: Place,
}

impl Fault for UnfoldFault {}

/// Why a term isn't unfolded: a rule fails at a place, or memory ran out.
pub type UnfoldError = OrMemory<UnfoldFault>;
