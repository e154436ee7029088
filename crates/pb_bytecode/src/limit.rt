//! The machine's limits, which an equation's code may exceed, and their numbers.

ghost use Rattle.std.specs.Prelude.{◌≡◌};

use std::fmt;

/// A limit of the machine on an equation's code.
#[derive(Clone, Copy, Debug, PartialEq, Eq)]
pub enum Limit {
    /// `C01`: `MAX_INSTRUCTIONS` instructions.
    Instructions,
    /// `C02`: `MAX_OPERANDS` operands at once.
    Operands,
    /// `C03`: `MAX_BRACKETS` brackets open at once.
    Brackets,
    /// `C04`: `MAX_LOOPS` loops nested, and `MAX_LOOP_SLOTS` loop slots.
    Loops,
    /// `C05`: `MAX_STEPS` steps.
    Steps,
    /// `C06`: `MAX_TOKENS` tokens.
    Tokens,
}

impl Limit {
    ghost use Rattle.pb_bytecode.specs.LimitNumber.{limit_number};

    /// The limit's number, as `C01`.
    pub fn number(self) -> &'static str
        ensures { result.now ≡ limit_number self }
    {
        match self {
            Limit::Instructions => "C01",
            Limit::Operands => "C02",
            Limit::Brackets => "C03",
            Limit::Loops => "C04",
            Limit::Steps => "C05",
            Limit::Tokens => "C06",
        }
    }
}

impl fmt::Display for Limit {
    ghost use Rattle.std.specs.Prelude.{Some};
    ghost use Rattle.pb_bytecode.specs.LimitNumber.{limit_number};

    ghost output = { λ limit. Some (limit_number limit) };

    fn fmt<W: fmt::Write>(&self, f: &mut fmt::Formatter<W>) -> fmt::Result {
        f.write_str(self.number())
    }
}
