//! Why code is refused for its structure.

ghost use Rattle.std.specs.Prelude.{◌≡◌};

use pb_base::{Fault, OrMemory};
use pb_verifier_states::AcceptanceRule;

/// A rule that is broken, and the place of the instruction that breaks it.
#[derive(Clone, Copy, Debug, PartialEq, Eq)]
pub struct PositionFault {
    pub rule: AcceptanceRule,
    pub place: usize,
}

impl Fault for PositionFault {}

/// Why the structure of code is not found good: an instruction breaks a rule by position, or memory
/// is refused.
pub type StructureError = OrMemory<PositionFault>;

/// The refusal for a rule that the instruction at a place breaks.
pub(crate) fn broken(rule: AcceptanceRule, place: usize) -> StructureError
    ensures { result ≡ OrMemory.Refused (record { rule = rule; place = place }) }
{
    OrMemory::Refused(PositionFault { rule, place })
}
