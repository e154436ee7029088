//! The interval of an operator's results.

ghost use Rattle.std.specs.Prelude.{◌≡◌, ◌≤ℤ◌, pos, true, neg_ℤ};
ghost use Rattle.pb_bytecode_program.specs.Abstract.{absolute_interval, interval_of};
ghost use Rattle.pb_bytecode_program.specs.Values.{has_divisor};
ghost use Rattle.pb_verifier_flow.specs.Edges.{fitting};

use pb_base_values::Interval;
use pb_bytecode_program::Arithmetic;

/// The results for a first operand in `a` and a second one in `b`, or `None` where an end lies
/// outside 64 bits. A divisor is at least 1.
pub(crate) fn results(operator: Arithmetic, a: Interval, b: Interval) -> Option<Interval>
    requires { has_divisor operator ≡ true → pos 1 ≤ℤ b.low }
    ensures { result ≡ fitting (interval_of operator a.low a.high b.low b.high) }
{
    let words = Interval::words();
    match operator {
        Arithmetic::Add => a.sum(b, words),
        Arithmetic::Sub => a.difference(b, words),
        Arithmetic::Mul => a.product(b, words),
        Arithmetic::Div => a.quotient(b, words),
        Arithmetic::Mod => a.remainder(b, words),
        Arithmetic::Min => a.minimum(b, words),
        Arithmetic::Max => a.maximum(b, words),
    }
}

/// The negatives of the numbers in `a`, or `None` where an end lies outside 64 bits.
pub(crate) fn negatives(a: Interval) -> Option<Interval>
    ensures { result ≡ fitting (neg_ℤ a.high, neg_ℤ a.low) }
{
    a.negation(Interval::words())
}

/// The absolute values of the numbers in `a`, or `None` where an end lies outside 64 bits.
pub(crate) fn absolute_values(a: Interval) -> Option<Interval>
    ensures { result ≡ fitting (absolute_interval a.low a.high) }
{
    a.absolute_value(Interval::words())
}
