//! Why the constants and bounds of a model aren't settled.

ghost use Rattle.std.specs.Prelude.{◌≡◌};
ghost use Rattle.pb_base.specs.OrMemory.{raised};
ghost use Rattle.pb_base.specs.declared.or_memory.OrMemory.TheVariants.{Refused};
ghost use Rattle.pb_protocol_constants.specs.Faults.{IsOfTerm, typing_fault};

use pb_base::{Fault, OrMemory};
use pb_protocol_unfolder_terms::{UnfoldError, UnfoldFault};
use pb_text_tree::Place;
use pb_typing_declarations::{TypingFault, TypingRule};

/// A rule that constants or bounds break.
#[derive(Clone, Copy, Debug, PartialEq, Eq)]
pub enum ConstantsFault {
    /// T01, T02, T04, T08 or T11, as of the definitions of a protocol; T04 also stands at the first
    /// token of a value that is no number of 32 bits, and T11 at that of a bound above the other.
    Typing(TypingFault),
    /// A term is too large as it is unfolded (P04).
    Term(UnfoldFault),
}

impl Fault for ConstantsFault {}

/// Why they aren't settled: a rule fails at a place, or memory ran out.
pub type ConstantsError = OrMemory<ConstantsFault>;

impl From<TypingFault> for ConstantsFault {
    ghost use Rattle.pb_protocol_constants.specs.declared.fault.ConstantsFault.TheVariants.{Typing};

    ghost from_gives = { λ fault above. above ≡ Typing fault };

    fn from(fault: TypingFault) -> ConstantsFault {
        ConstantsFault::Typing(fault)
    }
}

/// The refusal by a rule of typing at a place.
pub(crate) fn refused(rule: TypingRule, place: Place) -> ConstantsError
    ensures { result ≡ Refused (typing_fault rule place) }
{
    OrMemory::Refused(ConstantsFault::Typing(TypingFault { rule, place }))
}

/// The error of a term.
pub(crate) fn of_term(error: UnfoldError) -> ConstantsError
    ensures { raised IsOfTerm error result }
{
    match error {
        OrMemory::Refused(fault) => OrMemory::Refused(ConstantsFault::Term(fault)),
        OrMemory::Memory => OrMemory::Memory,
    }
}
