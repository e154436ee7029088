//! Finite carriers of data, the tuples of their values, and division: definitions, in `specs/`, and
//! laws about them. And intervals of whole numbers, with the interval of each operation on them:
//! the one set of rules by which a text is typed and the code of a module is verified.
//!
//! The interval of an operation is exact over all whole numbers, and is refused where it leaves the
//! limits that the caller gives: [`Interval::literals`] for terms of a text, [`Interval::words`]
//! for code.
#![tactic(auto)]

mod interval;
pub mod laws;

ghost use Rattle.std.specs.Prelude.{◌≡◌, ◌≢◌, ◌↔◌, All, AllPairs, ℕ, ◌<◌, ℤ, pos, ◌+ℤ◌, ◌*ℤ◌, ◌≤ℤ◌};
ghost use Rattle.std.specs.Prelude.{◌<ℤ◌, List, true, length, Contains};
ghost use Rattle.pb_base_values.specs.Carrier.{Carrier, Tuple, Value, is_within, tuple_count, tuples};
ghost use Rattle.pb_base_values.specs.Division.{quotient, remainder};

pub use interval::Interval;

/// The list of all tuples is as long as the product of the carriers' sizes.
pub fn tuples_are_counted()
    ensures { (carriers : List Carrier) → length (tuples carriers) ≡ tuple_count carriers }
{}

/// The list of all tuples has those with a value of each carrier, and no others.
pub fn tuples_are_those_within()
    ensures { (carriers : List Carrier) (values : Tuple)
        → (is_within carriers values ≡ true) ↔ Contains (tuples carriers) values }
{}

/// Where no carrier has a value twice, the list of all tuples has no tuple twice.
pub fn tuples_are_distinct()
    ensures { (carriers : List Carrier) → All (AllPairs (λ (u v : Value). u ≢ v)) carriers
        → AllPairs (λ (us vs : Tuple). us ≢ vs) (tuples carriers) }
{}

/// The quotient q and the remainder r of a by b are those with a = q * b + r and 0 <= r < b, for b
/// above 0.
pub fn division_rounds_down()
    ensures adds_up { (a : ℤ) (b : ℕ) → 0 < b
        → quotient a (pos b) *ℤ pos b +ℤ remainder a (pos b) ≡ a }
    ensures within { (a : ℤ) (b : ℕ) → 0 < b → (pos 0 ≤ℤ remainder a (pos b))
        × (remainder a (pos b) <ℤ pos b) }
{}
