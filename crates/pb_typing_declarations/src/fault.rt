//! What can be wrong with a text that was read, and where.

ghost use Rattle.std.specs.Prelude.{◌≡◌, [], Contains, MatchResult};
ghost use Rattle.pb_typing_declarations.specs.Faults.{unless};

use pb_base::{Fault, OrMemory};
use pb_text_tree::Place;
use std::fmt;

/// A rule that a text can break.
#[derive(Clone, Copy, Debug, PartialEq, Eq)]
pub enum TypingRule {
    /// T01: a name that isn't declared where it is used. The place is that of the name.
    UnknownName,
    /// T02: a name that is declared already, in its own name space. The place is that of the later
    /// name, and column 1 of the later range line.
    NameTwice,
    /// T03: a sort that isn't there, an alias whose chain has no end, or a range of no integer
    /// sort. The place is that of the sort's name, of the alias's declared name, and column 1 of
    /// the range line.
    UnknownSort,
    /// T04: a term of the wrong kind. The place is that of the operator, the quantifier, the
    /// function name or `val`, and for an argument that of its first token.
    WrongKind,
    /// T05: an integer sort of a variable without a range, or a range that begins below its sort's
    /// least value or is empty. The place is that of the sort's name, and column 1 of the range
    /// line.
    MissingRange,
    /// T06: a predicate variable under an odd number of negations, the left side of `=>` counting
    /// as one. The place is that of the name.
    OddNegations,
    /// T07: a predicate variable in data. The place is that of the name.
    PredicateInData,
    /// T08: a wrong count of arguments. The place is that of the name.
    WrongCount,
    /// T09: a divisor that may be below 1. The place is that of `div` or `mod`.
    Divisor,
    /// T10: a term whose interval goes beyond 2^62. The place is that of the operator or the
    /// function name.
    LargeInterval,
    /// T11: an argument of `init` outside its carrier. The place is that of the argument's first
    /// token.
    OutsideCarrier,
    /// T12: a limit. The place is that of the declared name that passes it, and for instances that
    /// of the predicate variable.
    Limit,
    /// T13: a quantifier in data where it may not stand. The place is that of the quantifier.
    QuantifierInData,
}

impl fmt::Display for TypingRule {
    ghost use Rattle.std.specs.Prelude.{Some};
    ghost use Rattle.pb_typing_declarations.specs.TypingRule.{rule_number};

    ghost output = { λ rule. Some (rule_number rule) };

    fn fmt<W: fmt::Write>(&self, f: &mut fmt::Formatter<W>) -> fmt::Result {
        f.write_str(self.number())
    }
}

impl TypingRule {
    ghost use Rattle.pb_typing_declarations.specs.TypingRule.{rule_number};

    /// The rule's number, as `T01`.
    pub fn number(self) -> &'static str
        ensures { result.now ≡ rule_number self }
    {
        match self {
            TypingRule::UnknownName => "T01",
            TypingRule::NameTwice => "T02",
            TypingRule::UnknownSort => "T03",
            TypingRule::WrongKind => "T04",
            TypingRule::MissingRange => "T05",
            TypingRule::OddNegations => "T06",
            TypingRule::PredicateInData => "T07",
            TypingRule::WrongCount => "T08",
            TypingRule::Divisor => "T09",
            TypingRule::LargeInterval => "T10",
            TypingRule::OutsideCarrier => "T11",
            TypingRule::Limit => "T12",
            TypingRule::QuantifierInData => "T13",
        }
    }
}

/// A rule that fails, and where.
#[derive(Clone, Copy, Debug, PartialEq, Eq)]
pub struct TypingFault {
    pub rule: TypingRule,
    pub place: Place,
}

impl Fault for TypingFault {}

/// Why a text isn't accepted: a rule fails at a place of the text, or memory is refused.
pub type TypeError = OrMemory<TypingFault>;

/// The rule fails at the place unless the test holds.
pub fn require(test: bool, rule: TypingRule, place: Place) -> Result<(), TypingFault>
    ensures { MatchResult result (λ _. unless test rule place ≡ [])
        (Contains (unless test rule place)) }
{
    if test {
        Ok(())
    } else {
        Err(TypingFault { rule, place })
    }
}
