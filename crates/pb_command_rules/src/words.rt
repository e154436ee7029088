//! What is written of each rule: made from docs/RULES.md by `.ci/rules`.
ghost use Rattle.std.specs.Prelude.{◌≡◌, true, nat_eq};
ghost use Rattle.std.specs.List.{starts_with};

mod runs;
mod texts;

use crate::rule::Rule;

impl Rule {
    ghost use Rattle.pb_command_rules.specs.Rules.{rule_number, rule_words};

    /// What the rule says, what to do where it is broken, and a command that shows it: lines of at
    /// most 80 columns, but for that command.
    pub fn words(self) -> &'static str
        ensures words { result.now ≡ rule_words self }
        ensures number { starts_with nat_eq result.now (rule_number self) ≡ true }
    {
        match self {
            Rule::P01 => texts::P01_WORDS,
            Rule::P02 => texts::P02_WORDS,
            Rule::P03 => texts::P03_WORDS,
            Rule::P04 => texts::P04_WORDS,
            Rule::P05 => texts::P05_WORDS,
            Rule::T01 => texts::T01_WORDS,
            Rule::T02 => texts::T02_WORDS,
            Rule::T03 => texts::T03_WORDS,
            Rule::T04 => texts::T04_WORDS,
            Rule::T05 => texts::T05_WORDS,
            Rule::T06 => texts::T06_WORDS,
            Rule::T07 => texts::T07_WORDS,
            Rule::T08 => texts::T08_WORDS,
            Rule::T09 => texts::T09_WORDS,
            Rule::T10 => texts::T10_WORDS,
            Rule::T11 => texts::T11_WORDS,
            Rule::T12 => texts::T12_WORDS,
            Rule::T13 => texts::T13_WORDS,
            Rule::C01 => runs::C01_WORDS,
            Rule::C02 => runs::C02_WORDS,
            Rule::C03 => runs::C03_WORDS,
            Rule::C04 => runs::C04_WORDS,
            Rule::C05 => runs::C05_WORDS,
            Rule::C06 => runs::C06_WORDS,
            Rule::B01 => runs::B01_WORDS,
            Rule::B02 => runs::B02_WORDS,
            Rule::B03 => runs::B03_WORDS,
            Rule::B04 => runs::B04_WORDS,
            Rule::B05 => runs::B05_WORDS,
            Rule::B06 => runs::B06_WORDS,
            Rule::B07 => runs::B07_WORDS,
            Rule::V01 => runs::V01_WORDS,
            Rule::V02 => runs::V02_WORDS,
            Rule::V03 => runs::V03_WORDS,
            Rule::V04 => runs::V04_WORDS,
            Rule::V05 => runs::V05_WORDS,
            Rule::V06 => runs::V06_WORDS,
            Rule::V07 => runs::V07_WORDS,
            Rule::V08 => runs::V08_WORDS,
            Rule::V09 => runs::V09_WORDS,
            Rule::V10 => runs::V10_WORDS,
            Rule::V11 => runs::V11_WORDS,
            Rule::V12 => runs::V12_WORDS,
            Rule::V13 => runs::V13_WORDS,
            Rule::V14 => runs::V14_WORDS,
            Rule::V15 => runs::V15_WORDS,
            Rule::V16 => runs::V16_WORDS,
            Rule::G01 => runs::G01_WORDS,
            Rule::U01 => runs::U01_WORDS,
            Rule::U02 => runs::U02_WORDS,
            Rule::M01 => runs::M01_WORDS,
            Rule::E01 => runs::E01_WORDS,
            Rule::E02 => runs::E02_WORDS,
        }
    }
}
