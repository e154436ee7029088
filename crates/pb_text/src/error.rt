//! Why a text is refused.

ghost use Rattle.std.specs.Prelude.{◌≡◌};
ghost use Rattle.pb_text.specs.Parsing as spec;

use pb_base::{Fault, OrMemory};
use pb_text_lexer::fault::{ReadingRule, Refusal};
use pb_text_lexer::kind::Kind;
use pb_text_tree::Place;

/// Which rule a text breaks, with the number that a user sees.
#[derive(Clone, Copy, Debug, PartialEq, Eq)]
pub enum TextRule {
    /// P01: a byte that begins no token.
    UnknownByte,
    /// P02: a token with which no text goes on. The end of the text counts as a token.
    UnexpectedToken,
    /// P03: a number above 2^62.
    LargeNumber,
    /// P04: a token that opens level 65, or the 8,193rd operator with two operands in an equation
    /// or in `init`.
    LimitExceeded,
    /// P05: a range line that isn't a name and two bounds in order, each within 32 bits.
    RangeLine,
}

/// A rule that a text breaks, and the place.
#[derive(Clone, Copy, Debug, PartialEq, Eq)]
pub struct TextFault {
    pub rule: TextRule,
    pub place: Place,
}

impl Fault for TextFault {}

/// Why no text was read: it breaks a rule at a place, or memory ran out.
pub type TextError = OrMemory<TextFault>;

/// The rule that a refused token breaks: its own, where it is no token.
fn rule_of(broken: ReadingRule, kind: Kind) -> TextRule
    ensures { result ≡ spec.rule_of broken kind }
{
    match (kind, broken) {
        (Kind::Unknown, _) => TextRule::UnknownByte,
        (Kind::LargeNumber, _) => TextRule::LargeNumber,
        (Kind::RangeLine, _) => TextRule::RangeLine,
        (_, ReadingRule::Unexpected) => TextRule::UnexpectedToken,
        (_, ReadingRule::Limit) => TextRule::LimitExceeded,
    }
}

impl From<Refusal> for TextFault {
    ghost use Rattle.std.specs.Prelude.{◌≡◌};
    ghost use Rattle.pb_text.specs.Parsing.{fault_of};

    ghost from_gives = { λ refusal fault. fault ≡ fault_of refusal };

    fn from(refusal: Refusal) -> TextFault {
        TextFault {
            rule: rule_of(refusal.rule, refusal.kind),
            place: refusal.place,
        }
    }
}
