//! What operators give of whole numbers.

ghost use Rattle.std.specs.Prelude.{◌≡◌, Bool, MatchOption};
ghost use Rattle.pb_text_meaning.specs.Erase.{of_arithmetic, of_comparison};
ghost use Rattle.pb_text_meaning.specs.Value as meaning;
ghost use Rattle.pb_base_values.specs.Carrier.{of_bool};
ghost use Rattle.pb_typing_tree.specs.Meaning.{connected_truth};
ghost use Rattle.pb_text_meaning.specs.Fits.{DivisorFits, IsBounded};

use pb_text_tree::{Arithmetic, Comparison, Connective};

/// Whether a value stands for true.
pub(crate) fn is_true(value: i64) -> bool
    ensures { result ≡ meaning.is_true value }
{
    value != 0
}

/// The truth of two operands that are connected, where the left one decides it: any truth of the
/// right one gives it. Where it doesn't, the truth is that of the right one.
pub(crate) fn decided_by(connective: Connective, left: bool) -> Option<bool>
    ensures { MatchOption result ((right : Bool) → connected_truth connective left right ≡ right)
        (λ decided. (right : Bool) → connected_truth connective left right ≡ decided) }
{
    match connective {
        Connective::And => (!left).then_some(false),
        Connective::Or => left.then_some(true),
        Connective::Implies => (!left).then_some(true),
    }
}

/// Whether two values compare so.
pub(crate) fn compares(comparison: Comparison, left: i64, right: i64) -> bool
    ensures { of_bool result ≡ meaning.binary (of_comparison comparison) left right }
{
    match comparison {
        Comparison::Equal => left == right,
        Comparison::NotEqual => left != right,
        Comparison::Less => left < right,
        Comparison::LessEqual => left <= right,
        Comparison::Greater => left > right,
        Comparison::GreaterEqual => left >= right,
    }
}

/// What an operator of two whole numbers gives.
pub(crate) fn calculate(operator: Arithmetic, left: i64, right: i64) -> i64
    requires divisor { DivisorFits (of_arithmetic operator) right }
    requires bounded { IsBounded (meaning.binary (of_arithmetic operator) left right) }
    ensures { result ≡ meaning.binary (of_arithmetic operator) left right }
{
    match operator {
        Arithmetic::Plus => left + right,
        Arithmetic::Minus => left - right,
        Arithmetic::Times => left * right,
        Arithmetic::Div => left.div_euclid(right),
        Arithmetic::Mod => left.rem_euclid(right),
    }
}
