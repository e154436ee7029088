//! Errors that have a line of their own: which rule was broken, and where.
ghost use Rattle.std.specs.Prelude.{◌≡◌, ◌≤◌, ℕ, List, length};
ghost use Rattle.pb_command_faults.specs.Lines.{line_at, text_rule_number};

use crate::Line;
use pb_assembler_measures::Excess;
use pb_bytecode::ModuleFault;
use pb_text::{TextFault, TextRule};
use pb_text_tree::Place;
use pb_typing_declarations::TypingFault;
use pb_verifier::CodeFault;

/// An error that the program tells of by a line.
pub trait ErrorLine {
    // The line, with its line feed.
    ghost line: { Self → List ℕ };

    /// The line of this error, with its line feed: the rule's number and its place, as `P02 line 1
    /// column 22`.
    fn error_line(&self) -> Line
        ensures { result ≡ line self.now };
}

// The number of a rule and a place.
pub(crate) fn placed_line(number: &str, place: Place) -> Line
    requires { length number.now ≤ 3 }
    ensures { result ≡ line_at number.now place }
{
    Line::of(number)
        .and(" line ", place.line as usize)
        .and(" column ", place.column as usize)
        .end()
}

// The number of a rule of texts.
pub(crate) fn text_rule_number(rule: TextRule) -> &'static str
    ensures { result.now ≡ text_rule_number rule }
{
    match rule {
        TextRule::UnknownByte => "P01",
        TextRule::UnexpectedToken => "P02",
        TextRule::LargeNumber => "P03",
        TextRule::LimitExceeded => "P04",
        TextRule::RangeLine => "P05",
    }
}

impl ErrorLine for TextFault {
    ghost use Rattle.pb_command_faults.specs.Lines.{text_line};

    ghost line = { text_line };

    fn error_line(&self) -> Line {
        placed_line(text_rule_number(self.rule), self.place)
    }
}

impl ErrorLine for TypingFault {
    ghost use Rattle.pb_command_faults.specs.Lines.{typing_line};

    ghost line = { typing_line };

    fn error_line(&self) -> Line {
        placed_line(self.rule.number(), self.place)
    }
}

impl ErrorLine for Excess {
    ghost use Rattle.pb_command_faults.specs.Lines.{limit_line};

    ghost line = { limit_line };

    fn error_line(&self) -> Line {
        Line::of(self.limit.number())
            .and(" equation ", self.equation)
            .end()
    }
}

impl ErrorLine for ModuleFault {
    ghost use Rattle.pb_command_faults.specs.Lines.{module_line};

    ghost line = { module_line };

    fn error_line(&self) -> Line {
        Line::of(self.rule.number()).and(" byte ", self.byte).end()
    }
}

impl ErrorLine for CodeFault {
    ghost use Rattle.pb_command_faults.specs.Lines.{code_line};

    ghost line = { code_line };

    fn error_line(&self) -> Line {
        Line::of(self.rule.number())
            .and(" equation ", self.equation)
            .and(" place ", self.place)
            .end()
    }
}
