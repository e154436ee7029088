//! Why a protocol isn't unfolded.

ghost use Rattle.std.specs.Prelude.{◌≡◌};
ghost use Rattle.pb_base.specs.OrMemory.{raised};
ghost use Rattle.pb_base.specs.declared.or_memory.OrMemory.TheVariants.{Refused};
ghost use Rattle.pb_protocol_unfolder.specs.Faults.{rule_of};
ghost use Rattle.pb_protocol_unfolder.specs.Parts.{IsOfSteps, IsOfTerm};

use pb_base::{Fault, OrMemory};
use pb_protocol_unfolder_steps::{StepsError, StepsFault};
use pb_protocol_unfolder_terms::{UnfoldError, UnfoldFault, UnfoldRule};
use pb_text_tree::Place;

/// Which rule fails where a protocol is unfolded, with the number that a user sees.
#[derive(Clone, Copy, Debug, PartialEq, Eq)]
pub enum UnfoldingRule {
    /// T02: two elements, or two steps with their values, have one name, or an element or a
    /// definition has the name of an enumerator. The place is that of the later state variable's or
    /// step's name, or of the definition's.
    Names,
    /// T04: a value in a set of steps is neither a name, a number nor a truth value. The place is
    /// that of its first token.
    Value,
    /// T11: an index outside its sort, or not seen to stay in it. The place is that of the index's
    /// first token.
    Index,
    /// T12: more than 64 elements or 8,192 steps with their values. The place is that of the name
    /// of the state variable or step that passes the limit.
    Count,
    /// P04: an unfolded term or formula has more than 8,192 operators, or nests too deep. The place
    /// is that of the token that passes the limit.
    Operators,
}

/// A rule that fails where a protocol is unfolded, and the place.
#[derive(Clone, Copy, Debug, PartialEq, Eq)]
pub struct UnfoldingFault {
    pub rule: UnfoldingRule,
    pub place: Place,
}

impl Fault for UnfoldingFault {}

/// Why a protocol isn't unfolded: a rule fails at a place, or memory ran out.
pub type UnfoldingError = OrMemory<UnfoldingFault>;

/// The refusal by a rule at a place.
pub(crate) fn refused(rule: UnfoldingRule, place: Place) -> UnfoldingError
    ensures { result ≡ Refused record { rule = rule; place = place } }
{
    OrMemory::Refused(UnfoldingFault { rule, place })
}

/// The rule that a term breaks.
fn rule_of_term(rule: UnfoldRule) -> UnfoldingRule
    ensures { result ≡ rule_of rule }
{
    match rule {
        UnfoldRule::Operators | UnfoldRule::Depth | UnfoldRule::Values => UnfoldingRule::Operators,
        UnfoldRule::Index => UnfoldingRule::Index,
    }
}

/// The fault of a term.
fn fault_of_term(fault: UnfoldFault) -> UnfoldingFault
    ensures { IsOfTerm fault result }
{
    UnfoldingFault {
        rule: rule_of_term(fault.rule),
        place: fault.place,
    }
}

/// The error of a term.
pub(crate) fn of_term(error: UnfoldError) -> UnfoldingError
    ensures { raised IsOfTerm error result }
{
    match error {
        OrMemory::Refused(fault) => OrMemory::Refused(fault_of_term(fault)),
        OrMemory::Memory => OrMemory::Memory,
    }
}

/// The error of the state, of steps or of a term of theirs.
pub(crate) fn of_steps(error: StepsError) -> UnfoldingError
    ensures { raised IsOfSteps error result }
{
    match error {
        OrMemory::Refused(StepsFault::Limit(place)) => refused(UnfoldingRule::Count, place),
        OrMemory::Refused(StepsFault::Term(fault)) => OrMemory::Refused(fault_of_term(fault)),
        OrMemory::Memory => OrMemory::Memory,
    }
}
