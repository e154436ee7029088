//! Carriers as the program holds them: three kinds of finite sorts, each a run of whole numbers.
ghost use Rattle.std.specs.Prelude.{◌≡◌, ◌<◌, ◌≤ℤ◌, ℤ};

use std::fmt;

/// L01: a range is empty, or a bound lies outside 32 bits.
#[derive(Clone, Copy, Debug, PartialEq, Eq)]
pub struct L01;

impl fmt::Display for L01 {
    ghost use Rattle.std.specs.Prelude.{Some, codes};

    ghost output = { λ _. Some (codes "L01") };

    fn fmt<W: fmt::Write>(&self, f: &mut fmt::Formatter<W>) -> fmt::Result {
        f.write_str("L01")
    }
}

impl std::error::Error for L01 {}

/// The enumerators of a sort: `sort` says which sort, and `count` how many there are, at least one.
#[derive(Clone, Copy, Debug, PartialEq, Eq)]
pub struct Enumeration {
    pub sort: u8,
    pub count: u8,
    pub ghost not_empty: { 0 < count },
}

/// The whole numbers from `low` to `high`, both included, at least one. `Carrier::range` makes one
/// from any bounds.
#[derive(Clone, Copy, Debug, PartialEq, Eq)]
pub struct Range {
    pub low: i32,
    pub high: i32,
    pub ghost not_empty: { low ≤ℤ high },
}

/// What values a parameter or a quantified variable has (Groote and Willemse 2005): a finite,
/// non-empty list.
///
/// A value is an `i64`: of `Bool` 0 for false and 1 for true, of an enumeration its place, of a
/// range the number itself.
#[derive(Clone, Copy, Debug, PartialEq, Eq)]
pub enum Carrier {
    Bool,
    Enum(Enumeration),
    Range(Range),
}

impl Carrier {
    ghost use Rattle.std.specs.Prelude.{◌↔◌, ◌≤◌, length, IsOk, IfOk, IsTrue, MatchOption, Some};
    ghost use Rattle.std.specs.Prelude.{false, pos, negsuc};
    ghost use Rattle.std.specs.List.{slice_get};
    ghost use Rattle.pb_base_values.specs.Carrier.{contains, interval};
    ghost use Rattle.pb_sorts.specs.Carrier.{values_of, IsRange, FitsRange};

    /// The carrier of the whole numbers from `low` to `high`.
    ///
    /// # Errors
    /// `L01` exactly where `high` is below `low`, or a bound is outside 32 bits.
    pub fn range(low: i64, high: i64) -> Result<Carrier, L01>
        ensures fits { IsOk result ↔ FitsRange low high }
        ensures bounds { IfOk result (λ carrier. IsRange carrier low high) }
    {
        match (i32::try_from(low), i32::try_from(high)) {
            (Ok(low), Ok(high)) if low <= high => Ok(Carrier::Range(Range { low, high })),
            _ => Err(L01),
        }
    }

    /// How many values there are, at least one and at most 2^32.
    pub fn size(&self) -> u64
        ensures count { result ≡ length (values_of self.now) }
        ensures some { 0 < result }
        ensures bound { result ≤ 4294967296 }
    {
        let (least, greatest) = self.bounds();
        (greatest - least + 1) as u64
    }

    /// Whether `value` is one of the values.
    pub fn contains(&self, value: i64) -> bool
        ensures { result ≡ contains (values_of self.now) value }
    {
        let (least, greatest) = self.bounds();
        least <= value && value <= greatest
    }

    /// The least and the greatest value; the numbers between are values too.
    pub fn bounds(&self) -> (i64, i64)
        ensures interval { values_of self.now ≡ interval result.0 result.1 }
        ensures order { result.0 ≤ℤ result.1 }
        ensures low { negsuc 2147483647 ≤ℤ result.0 }
        ensures high { result.1 ≤ℤ pos 2147483647 }
    {
        match self {
            Carrier::Bool => (0, 1),
            Carrier::Enum(sort) => (0, sort.count as i64 - 1),
            Carrier::Range(range) => (range.low as i64, range.high as i64),
        }
    }

    /// The place of `value` among the values, if it is one of them.
    pub(crate) fn place(&self, value: i64) -> Option<u64>
        ensures { MatchOption result (contains (values_of self.now) value ≡ false)
            (λ place. slice_get (values_of self.now) place ≡ Some value) }
    {
        if self.contains(value) {
            let (least, _) = self.bounds();
            Some((value - least) as u64)
        } else {
            None
        }
    }

    pub(crate) fn value(&self, place: u64) -> i64
        requires { place < length (values_of self.now) }
        ensures { slice_get (values_of self.now) place ≡ Some result }
    {
        let (least, _) = self.bounds();
        least + place as i64
    }
}
