//! Where an expression stands, and whether it needs brackets there.

ghost use Rattle.std.specs.Prelude.{◌≡◌};
ghost use Rattle.pb_text_printer.specs.Parts as parts;
ghost use Rattle.pb_text_printer.specs.Words as words;

use pb_text_tree::{Arithmetic, Comparison, Connective};

/// The levels of the grammar, from the one that binds loosest.
#[derive(Clone, Copy, PartialEq, Eq)]
pub enum Level {
    Implication,
    Disjunction,
    Conjunction,
    Equality,
    Order,
    Sum,
    Product,
    Unary,
}

impl Level {
    /// How tightly the level binds.
    fn rank(self) -> u8
        ensures { result ≡ words.binding_strength self }
    {
        self as u8
    }

    /// Whether an expression of this level stands without brackets where one of the other is asked
    /// for.
    pub fn fits(self, asked: Level) -> bool
        ensures { result ≡ words.fits self asked }
    {
        asked.rank() <= self.rank()
    }
}

/// Whether a quantifier, which reaches as far to the right as it can, may stand at the right end of
/// an expression.
#[derive(Clone, Copy)]
pub enum RightEnd {
    Open,
    Closed,
}

impl RightEnd {
    /// Whether a quantifier may stand there.
    pub fn is_open(self) -> bool
        ensures { result ≡ words.is_open_end self }
    {
        matches!(self, RightEnd::Open)
    }
}

/// Where an expression stands: the level that is asked for, and its right end.
#[derive(Clone, Copy)]
pub struct Position {
    pub level: Level,
    pub right_end: RightEnd,
}

impl Position {
    /// Where no quantifier may end the expression.
    pub fn closed(level: Level) -> Position
        ensures { result ≡ record { level = level; right_end = RightEnd.Closed } }
    {
        Position {
            level,
            right_end: RightEnd::Closed,
        }
    }

    /// Where the last operand of a chain stands, whose right end is that of the chain.
    pub fn last(level: Level, right_end: RightEnd) -> Position
        ensures { result ≡ record { level = level; right_end = right_end } }
    {
        Position { level, right_end }
    }
}

/// The level of a chain of the connective.
pub fn connective_level(connective: Connective) -> Level
    ensures { result ≡ words.connective_level connective }
{
    match connective {
        Connective::Implies => Level::Implication,
        Connective::Or => Level::Disjunction,
        Connective::And => Level::Conjunction,
    }
}

/// The level of a comparison, and that of its two sides.
pub fn comparison_levels(comparison: Comparison) -> (Level, Level)
    ensures own { result.0 ≡ words.comparison_level comparison }
    ensures sides { result.1 ≡ words.comparison_side comparison }
{
    match comparison {
        Comparison::Equal | Comparison::NotEqual => (Level::Equality, Level::Order),
        _ => (Level::Order, Level::Sum),
    }
}

/// The level of a chain of arithmetic with this operator, and that of its operands.
pub fn arithmetic_levels(operator: Arithmetic) -> (Level, Level)
    ensures own { result.0 ≡ words.arithmetic_level operator }
    ensures operands { result.1 ≡ words.arithmetic_side operator }
{
    match operator {
        Arithmetic::Plus | Arithmetic::Minus => (Level::Sum, Level::Product),
        _ => (Level::Product, Level::Unary),
    }
}

/// Whether an operator may stand in a chain with another.
pub fn chains_with(operator: Arithmetic, other: Arithmetic) -> bool
    ensures { result ≡ words.chains_with operator (words.arithmetic_word other).kind }
{
    match operator {
        Arithmetic::Plus | Arithmetic::Minus => {
            matches!(other, Arithmetic::Plus | Arithmetic::Minus)
        }
        Arithmetic::Times => matches!(other, Arithmetic::Times),
        Arithmetic::Div | Arithmetic::Mod => matches!(other, Arithmetic::Div | Arithmetic::Mod),
    }
}

/// Whether brackets stand around an expression.
#[derive(Clone, Copy)]
pub enum Bracketing {
    Bare,
    Bracketed,
}

/// Whether what an operator computes stands without brackets before another.
fn continues(operator: Arithmetic, next: Arithmetic) -> bool
    ensures { result ≡ parts.continues operator next }
{
    chains_with(next, operator)
        || arithmetic_levels(operator)
            .0
            .fits(arithmetic_levels(next).1)
}

/// How the left side of an operator is written, where the operator before it computes that side, if
/// there is one.
pub fn left_bracketing(before: Option<Arithmetic>, next: Arithmetic) -> Bracketing
    ensures { result ≡ parts.left_bracketing before next }
{
    match before {
        Some(operator) if !continues(operator, next) => Bracketing::Bracketed,
        _ => Bracketing::Bare,
    }
}

/// The token of a connective.
pub fn connective_token(connective: Connective) -> &'static str
    ensures { result.now ≡ (words.connective_word connective).text }
{
    match connective {
        Connective::And => "&&",
        Connective::Or => "||",
        Connective::Implies => "=>",
    }
}

/// The token of a comparison.
pub fn comparison_token(comparison: Comparison) -> &'static str
    ensures { result.now ≡ (words.comparison_word comparison).text }
{
    match comparison {
        Comparison::Equal => "==",
        Comparison::NotEqual => "!=",
        Comparison::Less => "<",
        Comparison::LessEqual => "<=",
        Comparison::Greater => ">",
        Comparison::GreaterEqual => ">=",
    }
}

/// The token of an operator of arithmetic.
pub fn arithmetic_token(operator: Arithmetic) -> &'static str
    ensures { result.now ≡ (words.arithmetic_word operator).text }
{
    match operator {
        Arithmetic::Plus => "+",
        Arithmetic::Minus => "-",
        Arithmetic::Times => "*",
        Arithmetic::Div => "div",
        Arithmetic::Mod => "mod",
    }
}
