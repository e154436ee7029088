//! Which tokens are operators and quantifiers, and what each stands for.

ghost use Rattle.std.specs.Prelude.{◌≡◌};
ghost use Rattle.pb_text_terms.specs.Operators as spec;
ghost use Rattle.pb_text_terms.specs.Reading as reading;

use pb_text_lexer::kind::{Kind, same_kind};
use pb_text_tree::{Arithmetic, Comparison, Connective, Quantifier};

/// The token of a connective.
pub fn symbol(connective: Connective) -> Kind
    ensures { result ≡ spec.symbol_kind connective }
{
    match connective {
        Connective::And => Kind::And,
        Connective::Or => Kind::Or,
        Connective::Implies => Kind::Implies,
    }
}

/// Whether a token is a connective.
pub fn is_connective(kind: Kind) -> bool
    ensures { result ≡ spec.is_connective kind }
{
    matches!(kind, Kind::And | Kind::Or | Kind::Implies)
}

/// Whether a token binds variables in data: a quantifier, or `count`.
pub fn is_binder(kind: Kind) -> bool
    ensures { result ≡ spec.is_binder kind }
{
    same_kind(kind, Kind::Count) || is_quantifier(kind)
}

/// The quantifier of a token, if it is one.
pub fn quantifier(kind: Kind) -> Option<Quantifier>
    ensures { result ≡ reading.quantifier_of kind }
{
    match kind {
        Kind::Forall => Some(Quantifier::Forall),
        Kind::Exists => Some(Quantifier::Exists),
        _ => None,
    }
}

/// Whether a token is a quantifier.
pub fn is_quantifier(kind: Kind) -> bool
    ensures { result ≡ spec.is_quantifier kind }
{
    matches!(kind, Kind::Forall | Kind::Exists)
}

/// Whether a token compares two terms of one kind.
pub fn is_equality(kind: Kind) -> bool
    ensures { result ≡ spec.is_equality kind }
{
    matches!(kind, Kind::Equal | Kind::NotEqual)
}

/// Whether a token compares two whole numbers.
pub fn is_order(kind: Kind) -> bool
    ensures { result ≡ spec.is_order kind }
{
    matches!(
        kind,
        Kind::Less | Kind::LessOrEqual | Kind::Greater | Kind::GreaterOrEqual
    )
}

/// Whether a token is an operator of arithmetic or compares.
pub fn is_operator(kind: Kind) -> bool
    ensures { result ≡ spec.is_operator kind }
{
    matches!(
        kind,
        Kind::Plus
            | Kind::Minus
            | Kind::Times
            | Kind::Div
            | Kind::Mod
            | Kind::Less
            | Kind::LessOrEqual
            | Kind::Greater
            | Kind::GreaterOrEqual
            | Kind::Equal
            | Kind::NotEqual
    )
}

/// The comparison of a token; only of a comparison's sign it is asked for.
pub fn comparison(kind: Kind) -> Comparison
    ensures { result ≡ spec.comparison_of kind }
{
    match kind {
        Kind::NotEqual => Comparison::NotEqual,
        Kind::Less => Comparison::Less,
        Kind::LessOrEqual => Comparison::LessEqual,
        Kind::Greater => Comparison::Greater,
        Kind::GreaterOrEqual => Comparison::GreaterEqual,
        _ => Comparison::Equal,
    }
}

/// Operators of arithmetic that may stand in one chain.
#[derive(Clone, Copy, PartialEq, Eq)]
pub enum Operators {
    /// `+` and `-`
    Additive,
    /// `*`
    Times,
    /// `div` and `mod`
    Division,
}

/// Whether a token is one of the operators.
pub fn is_among(operators: Operators, kind: Kind) -> bool
    ensures { result ≡ reading.is_among operators kind }
{
    match operators {
        Operators::Additive => matches!(kind, Kind::Plus | Kind::Minus),
        Operators::Times => matches!(kind, Kind::Times),
        Operators::Division => matches!(kind, Kind::Div | Kind::Mod),
    }
}

/// Whether a token is an operator that may not follow a chain of the operators.
pub fn is_mixed(operators: Operators, kind: Kind) -> bool
    ensures { result ≡ reading.is_mixed operators kind }
{
    match operators {
        Operators::Additive => false,
        Operators::Times => is_among(Operators::Division, kind),
        Operators::Division => is_among(Operators::Times, kind),
    }
}

/// The operator of a token; only of an operator of arithmetic it is asked for.
pub fn arithmetic(kind: Kind) -> Arithmetic
    ensures { result ≡ spec.arithmetic_of kind }
{
    match kind {
        Kind::Minus => Arithmetic::Minus,
        Kind::Times => Arithmetic::Times,
        Kind::Div => Arithmetic::Div,
        Kind::Mod => Arithmetic::Mod,
        _ => Arithmetic::Plus,
    }
}
