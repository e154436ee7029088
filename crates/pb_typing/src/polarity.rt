//! Polarity: whether the negations around a part of a formula are even in number, or odd.

ghost use Rattle.std.specs.Prelude.{◌≡◌, not};
ghost use Rattle.pb_typing_rules.specs.Faults.{operand_parity};
ghost use Rattle.pb_typing.specs.View.{is_positive};

use pb_text_tree::Connective;

/// Positive under an even number of negations, and negative under an odd one.
#[derive(Clone, Copy, Debug, PartialEq, Eq)]
pub enum Polarity {
    Positive,
    Negative,
}

impl Polarity {
    /// Whether the negations around are even in number.
    pub fn is_positive(self) -> bool
        ensures { result ≡ is_positive self }
    {
        matches!(self, Polarity::Positive)
    }

    /// The polarity under one negation more.
    pub fn opposite(self) -> Polarity
        ensures { is_positive result ≡ not (is_positive self) }
    {
        match self {
            Polarity::Positive => Polarity::Negative,
            Polarity::Negative => Polarity::Positive,
        }
    }
}

/// The polarity of an operand of a chain, whose own is given, where `behind` operands stand behind
/// it. The left side of `=>` counts as negated (T06), and a chain is read to the right.
pub fn operand_polarity(connective: Connective, polarity: Polarity, behind: usize) -> Polarity
    ensures { is_positive result ≡ operand_parity connective (is_positive polarity) behind }
{
    match connective {
        Connective::Implies if behind > 0 => polarity.opposite(),
        _ => polarity,
    }
}
