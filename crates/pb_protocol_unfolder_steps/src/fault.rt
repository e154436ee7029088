//! Why the state or the steps of a protocol aren't unfolded.

ghost use Rattle.std.specs.Prelude.{◌≡◌};
ghost use Rattle.pb_protocol_unfolder_steps.specs.StepFaults.{term_error};

use pb_base::{Fault, OrMemory};
use pb_protocol_unfolder_terms::{UnfoldError, UnfoldFault};
use pb_text_tree::Place;

/// A rule that fails where a protocol's state or steps are unfolded.
#[derive(Clone, Copy, Debug, PartialEq, Eq)]
pub enum StepsFault {
    /// T12: more than 64 elements or 8,192 steps. The place is that of the name of the state
    /// variable or step that passes the limit.
    Limit(Place),
    /// A term isn't unfolded.
    Term(UnfoldFault),
}

impl Fault for StepsFault {}

/// Why state or steps aren't unfolded: a rule fails at a place, or memory ran out.
pub type StepsError = OrMemory<StepsFault>;

/// The fault of a term.
pub(crate) fn of_term(error: UnfoldError) -> StepsError
    ensures { result ≡ term_error error }
{
    match error {
        OrMemory::Refused(fault) => OrMemory::Refused(StepsFault::Term(fault)),
        OrMemory::Memory => OrMemory::Memory,
    }
}
