//! Intervals of whole numbers that fit 64 bits, and the interval of each operation (interval
//! arithmetic, Moore 1966). Ends are computed in 128 bits, where nothing overflows, and then
//! compared with the limits.

ghost use Rattle.std.specs.Prelude.{◌≡◌, ◌≤ℤ◌, ◌*ℤ◌, ◌↔◌, IsTrue, pos};
ghost use Rattle.pb_base_values.specs.Division.{quotient};
ghost use Rattle.pb_base_values.specs.Interval.{IntegerInterval, Includes, IsWithin, cut, hull};
ghost use Rattle.pb_base_values.specs.Interval.{literals, singleton, unless_empty, within, words};
ghost use Rattle.pb_base_values.specs.Operation.{absolute_values, differences, maxima, minima};
ghost use Rattle.pb_base_values.specs.Operation.{negations, predecessors, products, quotients};
ghost use Rattle.pb_base_values.specs.Operation.{remainders, span_of_four, successors, sums};

use std::marker::Model;

/// The whole numbers from a least one to a greatest one, both included. It is never empty.
///
/// The operations take the limits within which their result has to lie, and answer `None` exactly
/// where an end of the result, which is exact over all whole numbers, lies outside these limits.
#[derive(Clone, Copy, Debug, PartialEq, Eq)]
pub struct Interval {
    low: i64,
    high: i64,
}

impl Model for Interval {
    ghost Value = { IntegerInterval };

    ghost view = { λ i. record { low = i.low; high = i.high } };

    ghost inverse = { λ i. record { low = i.low; high = i.high } };

    ghost invariant = { λ i. i.low ≤ℤ i.high };
}

impl Interval {
    /// All numbers of 64 bits: the limits of code.
    pub fn words() -> Interval
        ensures { result ≡ words }
    {
        Interval {
            low: i64::MIN,
            high: i64::MAX,
        }
    }

    /// The numbers from -2^62 to 2^62, the greatest literal: the limits of a text's terms.
    pub fn literals() -> Interval
        ensures { result ≡ literals }
    {
        Interval {
            low: -(1 << 62),
            high: 1 << 62,
        }
    }

    /// The numbers from `low` to `high`, which is at least `low`.
    pub fn new(low: i64, high: i64) -> Interval
        requires { low ≤ℤ high }
        ensures { result ≡ record { low = low; high = high } }
    {
        Interval { low, high }
    }

    /// The one number `value`.
    pub fn singleton(value: i64) -> Interval
        ensures { result ≡ singleton value }
    {
        Interval {
            low: value,
            high: value,
        }
    }

    /// The least number.
    pub fn low(self) -> i64
        ensures value { result ≡ self.low }
        ensures ordered { self.low ≤ℤ self.high }
    {
        self.low
    }

    /// The greatest number.
    pub fn high(self) -> i64
        ensures value { result ≡ self.high }
        ensures ordered { self.low ≤ℤ self.high }
    {
        self.high
    }

    /// Whether `value` is one of the interval's numbers.
    pub fn contains(self, value: i64) -> bool
        ensures { IsTrue result ↔ Includes self value }
    {
        value >= self.low && value <= self.high
    }

    /// Whether each number of the interval is one of `outer`.
    pub fn is_within(self, outer: Interval) -> bool
        ensures { IsTrue result ↔ IsWithin self outer }
    {
        outer.low <= self.low && self.high <= outer.high
    }

    /// The least interval that has the numbers of both: what is known of a number that is either's.
    pub fn hull(self, other: Interval) -> Interval
        ensures { result ≡ hull self other }
    {
        Interval {
            low: self.low.min(other.low),
            high: self.high.max(other.high),
        }
    }

    /// The numbers that `range` has, too, or `None` where there are none.
    pub fn cut(self, range: Interval) -> Option<Interval>
        ensures { result ≡ unless_empty (cut self range) }
    {
        let low = self.low.max(range.low);
        let high = self.high.min(range.high);
        if low <= high {
            Some(Interval { low, high })
        } else {
            None
        }
    }
}

/// Operations on a number `a` of the interval.
impl Interval {
    /// The interval of `-a`.
    pub fn negation(self, limits: Interval) -> Option<Interval>
        ensures { result ≡ within limits (negations self) }
    {
        let (low, high) = self.wide_ends();
        limited(-high, -low, limits)
    }

    /// The interval of `a + 1`.
    pub fn successor(self, limits: Interval) -> Option<Interval>
        ensures { result ≡ within limits (successors self) }
    {
        let (low, high) = self.wide_ends();
        limited(low + 1, high + 1, limits)
    }

    /// The interval of `a - 1`.
    pub fn predecessor(self, limits: Interval) -> Option<Interval>
        ensures { result ≡ within limits (predecessors self) }
    {
        let (low, high) = self.wide_ends();
        limited(low - 1, high - 1, limits)
    }

    /// The interval of the absolute value of `a`.
    pub fn absolute_value(self, limits: Interval) -> Option<Interval>
        ensures { result ≡ within limits (absolute_values self) }
    {
        let (low, high) = self.wide_ends();
        if low >= 0 {
            limited(low, high, limits)
        } else if high <= 0 {
            self.negation(limits)
        } else {
            limited(0, high.max(-low), limits)
        }
    }
}

/// Operations on a number `a` of the interval and a number `b` of the other.
impl Interval {
    /// The interval of `a + b`.
    pub fn sum(self, other: Interval, limits: Interval) -> Option<Interval>
        ensures { result ≡ within limits (sums self other) }
    {
        let (low, high) = self.wide_ends();
        let (other_low, other_high) = other.wide_ends();
        limited(low + other_low, high + other_high, limits)
    }

    /// The interval of `a - b`.
    pub fn difference(self, other: Interval, limits: Interval) -> Option<Interval>
        ensures { result ≡ within limits (differences self other) }
    {
        let (low, high) = self.wide_ends();
        let (other_low, other_high) = other.wide_ends();
        limited(low - other_high, high - other_low, limits)
    }

    /// The interval of `a * b`: it ends at products of the operands' ends.
    pub fn product(self, other: Interval, limits: Interval) -> Option<Interval>
        ensures { result ≡ within limits (products self other) }
    {
        let (low, high) = (self.low(), self.high());
        let (other_low, other_high) = (other.low(), other.high());
        limited_span(
            wide_product(low, other_low),
            wide_product(low, other_high),
            wide_product(high, other_low),
            wide_product(high, other_high),
            limits,
        )
    }

    /// The interval of the quotient of `a` by `b`, rounded down: it ends at quotients of the
    /// operands' ends. No divisor is below 1.
    pub fn quotient(self, other: Interval, limits: Interval) -> Option<Interval>
        requires { pos 1 ≤ℤ other.low }
        ensures { result ≡ within limits (quotients self other) }
    {
        let (low, high) = (self.low(), self.high());
        let (other_low, other_high) = (other.low(), other.high());
        limited_span(
            wide_quotient(low, other_low),
            wide_quotient(low, other_high),
            wide_quotient(high, other_low),
            wide_quotient(high, other_high),
            limits,
        )
    }

    /// The interval of the remainder of `a` by `b`, which is never below 0. No divisor is below 1.
    pub fn remainder(self, other: Interval, limits: Interval) -> Option<Interval>
        requires { pos 1 ≤ℤ other.low }
        ensures { result ≡ within limits (remainders self other) }
    {
        let (low, high) = self.wide_ends();
        let (_, other_high) = other.wide_ends();
        let greatest = other_high - 1;
        if low >= 0 {
            limited(0, high.min(greatest), limits)
        } else {
            limited(0, greatest, limits)
        }
    }

    /// The interval of the greater of `a` and `b`.
    pub fn maximum(self, other: Interval, limits: Interval) -> Option<Interval>
        ensures { result ≡ within limits (maxima self other) }
    {
        let (low, high) = self.wide_ends();
        let (other_low, other_high) = other.wide_ends();
        limited(low.max(other_low), high.max(other_high), limits)
    }

    /// The interval of the lesser of `a` and `b`.
    pub fn minimum(self, other: Interval, limits: Interval) -> Option<Interval>
        ensures { result ≡ within limits (minima self other) }
    {
        let (low, high) = self.wide_ends();
        let (other_low, other_high) = other.wide_ends();
        limited(low.min(other_low), high.min(other_high), limits)
    }

    // Both ends in 128 bits, where the sum of two and the negation of one fit.
    fn wide_ends(self) -> (i128, i128)
        ensures low { result.0 ≡ self.low }
        ensures high { result.1 ≡ self.high }
        ensures ordered { self.low ≤ℤ self.high }
        ensures low_fits { words.low ≤ℤ self.low }
        ensures high_fits { self.high ≤ℤ words.high }
    {
        (i128::from(self.low), i128::from(self.high))
    }
}

// The numbers from `low` to `high`, if they are within the limits (T10 of texts, V04 of code).
fn limited(low: i128, high: i128, limits: Interval) -> Option<Interval>
    requires { low ≤ℤ high }
    ensures { result ≡ within limits (record { low = low; high = high }) }
{
    if i128::from(limits.low) <= low && high <= i128::from(limits.high) {
        Some(Interval {
            low: low as i64,
            high: high as i64,
        })
    } else {
        None
    }
}

// The numbers from the least to the greatest of four, if they are within the limits.
fn limited_span(a: i128, b: i128, c: i128, d: i128, limits: Interval) -> Option<Interval>
    ensures { result ≡ within limits (span_of_four a b c d) }
{
    let low = a.min(b).min(c.min(d));
    let high = a.max(b).max(c.max(d));
    limited(low, high, limits)
}

// The product, which fits 128 bits.
fn wide_product(a: i64, b: i64) -> i128
    ensures { result ≡ a *ℤ b }
{
    i128::from(a) * i128::from(b)
}

// The quotient, rounded down.
fn wide_quotient(a: i64, b: i64) -> i128
    requires { pos 1 ≤ℤ b }
    ensures { result ≡ quotient a b }
{
    i128::from(a.div_euclid(b))
}
