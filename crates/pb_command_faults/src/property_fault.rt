//! A property of a model that has no verdict: it is too large to be answered, or its negation,
//! which the verdict needs, is refused.
ghost use Rattle.std.specs.Prelude.{◌≡◌, ◌≤◌, length};

use crate::error_line::{placed_line, text_rule_number};
use crate::{ErrorLine, Line};
use pb_bytecode::Limit;
use pb_text::TextRule;
use pb_text_tree::Place;
use pb_typing_declarations::TypingRule;

/// Why a property has no verdict: what of it is too large, or the rule that its negation breaks.
///
/// The negation of a property that was accepted breaks a rule only where it is larger, since `!`
/// counts; whichever rule it is, its number is reported.
#[derive(Clone, Copy, Debug, PartialEq, Eq)]
pub enum PropertyExcess {
    /// `T12`: its text passes a limit of texts.
    Text,
    /// `C01` to `C06`: the code of an equation of its text exceeds this limit.
    Code(Limit),
    /// `G01`: its game has more than 2^24 vertices.
    Game,
    /// The protocol with its negation breaks this rule where that is written out, as `P04`.
    NegationText(TextRule),
    /// The protocol with its negation, or the text of that, breaks this rule of typing, as `T12`.
    NegationTyping(TypingRule),
}

/// A property that has no verdict, and the place of its name in the model.
#[derive(Clone, Copy, Debug, PartialEq, Eq)]
pub struct PropertyFault {
    pub excess: PropertyExcess,
    pub place: Place,
}

impl PropertyExcess {
    ghost use Rattle.pb_command_faults.specs.Lines.{property_rule};

    /// The number of the rule by which the property is refused.
    pub fn number(self) -> &'static str
        ensures number { result.now ≡ property_rule self }
        ensures short { length result.now ≤ 3 }
    {
        match self {
            PropertyExcess::Text => TypingRule::Limit.number(),
            PropertyExcess::Code(limit) => limit.number(),
            PropertyExcess::Game => "G01",
            PropertyExcess::NegationText(rule) => text_rule_number(rule),
            PropertyExcess::NegationTyping(rule) => rule.number(),
        }
    }
}

impl ErrorLine for PropertyFault {
    ghost use Rattle.pb_command_faults.specs.Lines.{property_line};

    ghost line = { property_line };

    fn error_line(&self) -> Line {
        placed_line(self.excess.number(), self.place)
    }
}
