//! The rule of a number.
ghost use Rattle.std.specs.Prelude.{◌≡◌};

use crate::rule::{RULES, Rule};

impl Rule {
    ghost use Rattle.pb_command_rules.specs.Rules.{rule_of};

    /// The rule of a number, if the program tells of one by it.
    pub fn numbered(number: &str) -> Option<Rule>
        ensures { result ≡ rule_of number.now }
    {
        RULES.iter().copied().find(|rule| rule.number() == number)
    }
}
