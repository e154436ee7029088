//! The rules by which code is refused.

use std::fmt;

/// A rule that an instruction breaks. The rules are numbered from V01 to V16, and printed by their
/// number.
#[derive(Clone, Copy, Debug, PartialEq, Eq)]
pub enum AcceptanceRule {
    /// V01: an operand is missing, or stands below the floor of the loop.
    MissingOperand,
    /// V02: an operand or a slot is of another kind.
    WrongKind,
    /// V03: the divisor may be below 1.
    Divisor,
    /// V04: the result may lie outside 64 bits.
    Overflow,
    /// V05: the target is behind the last instruction.
    TargetOutside,
    /// V06: the target is not behind the jump.
    TargetNotLater,
    /// V07: the target is in the body of another loop.
    TargetInOtherBody,
    /// V08: an argument may lie outside its carrier.
    ArgumentOutside,
    /// V09: no such slot, no such loop slot, a loop slot that is in use, or no such equation.
    UnknownName,
    /// V10: more than `MAX_OPERANDS` operands.
    TooManyOperands,
    /// V11: what is known on two ways does not join.
    WaysDiffer,
    /// V12: loops do not pair, are nested too deep, contain the end, or end otherwise than they
    /// began.
    LoopStructure,
    /// V13: brackets do not pair, or more than `MAX_BRACKETS` are open.
    Brackets,
    /// V14: not exactly one root.
    Roots,
    /// V15: control flows past the last instruction.
    PastTheEnd,
    /// V16: the stated steps or tokens are below the static counts or above their limits.
    StatedCounts,
}

impl AcceptanceRule {
    ghost use Rattle.std.specs.Prelude.{◌≡◌};
    ghost use Rattle.pb_verifier_states.specs.RuleNumber.{rule_number};

    /// The rule's number, as `V01`.
    pub fn number(self) -> &'static str
        ensures { result.now ≡ rule_number self }
    {
        match self {
            AcceptanceRule::MissingOperand => "V01",
            AcceptanceRule::WrongKind => "V02",
            AcceptanceRule::Divisor => "V03",
            AcceptanceRule::Overflow => "V04",
            AcceptanceRule::TargetOutside => "V05",
            AcceptanceRule::TargetNotLater => "V06",
            AcceptanceRule::TargetInOtherBody => "V07",
            AcceptanceRule::ArgumentOutside => "V08",
            AcceptanceRule::UnknownName => "V09",
            AcceptanceRule::TooManyOperands => "V10",
            AcceptanceRule::WaysDiffer => "V11",
            AcceptanceRule::LoopStructure => "V12",
            AcceptanceRule::Brackets => "V13",
            AcceptanceRule::Roots => "V14",
            AcceptanceRule::PastTheEnd => "V15",
            AcceptanceRule::StatedCounts => "V16",
        }
    }
}

impl fmt::Display for AcceptanceRule {
    ghost use Rattle.std.specs.Prelude.{Some};
    ghost use Rattle.pb_verifier_states.specs.RuleNumber.{rule_number};

    ghost output = { λ rule. Some (rule_number rule) };

    fn fmt<W: fmt::Write>(&self, f: &mut fmt::Formatter<W>) -> fmt::Result {
        f.write_str(self.number())
    }
}
