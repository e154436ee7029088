//! Laws of division and of the intervals' rules. The functions do nothing: each law stands on its
//! function's contract.

ghost use Rattle.std.specs.Prelude.{◌≡◌, ◌↔◌, ◌⊎◌, ℤ, pos, ◌≤ℤ◌, true, Some};
ghost use Rattle.pb_base_values.specs.Division.{quotient, remainder};
ghost use Rattle.pb_base_values.specs.Interval.{IntegerInterval, Includes, IsNonEmpty, IsWithin, cut};
ghost use Rattle.pb_base_values.specs.Interval.{hull, is_non_empty, is_included, unless_empty};
ghost use Rattle.pb_base_values.specs.Interval.{within};
ghost use Rattle.pb_base_values.specs.Laws.{IsDefined, IsDivision};
ghost use Rattle.pb_base_values.specs.Operation.{BinaryOperation, UnaryOperation, binary_interval};
ghost use Rattle.pb_base_values.specs.Operation.{binary_value, unary_interval, unary_value};

/// By a divisor of at least 1, the quotient and the remainder are the only numbers that divide.
pub fn division_is_unique()
    ensures { (a b q r : ℤ) → pos 1 ≤ℤ b → (IsDivision a b q r
        ↔ ((q ≡ quotient a b) × (r ≡ remainder a b))) }
{}

/// The tests mean what they are named for; an interval that isn't empty is within another exactly
/// where the other has its values; a limited interval and one unless it is empty are that interval
/// or none.
pub fn tests_decide()
    ensures non_empty { (i : IntegerInterval) → ((is_non_empty i ≡ true) ↔ IsNonEmpty i) }
    ensures within { (i outer : IntegerInterval)
        → ((is_included i outer ≡ true) ↔ IsWithin i outer) }
    ensures values { (i outer : IntegerInterval) → IsNonEmpty i
        → (IsWithin i outer ↔ ((v : ℤ) → Includes i v → Includes outer v)) }
    ensures limited { (limits i r : IntegerInterval)
        → ((within limits i ≡ Some r) ↔ ((r ≡ i) × IsWithin i limits)) }
    ensures unless_empty { (i r : IntegerInterval)
        → ((unless_empty i ≡ Some r) ↔ ((r ≡ i) × IsNonEmpty i)) }
{}

/// The interval of an operation has the operation's value at each value of the operands' intervals.
pub fn operations_are_sound()
    ensures unary { (o : UnaryOperation) (i : IntegerInterval) (a : ℤ) → Includes i a
        → Includes (unary_interval o i) (unary_value o a) }
    ensures binary { (o : BinaryOperation) (i j : IntegerInterval) (a b : ℤ) → IsDefined o j
        → Includes i a → Includes j b → Includes (binary_interval o i j) (binary_value o a b) }
    ensures hull { (i j : IntegerInterval) (v : ℤ) → Includes i v ⊎ Includes j v
        → Includes (hull i j) v }
    ensures cut { (i range : IntegerInterval) (v : ℤ)
        → (Includes (cut i range) v ↔ (Includes i v × Includes range v)) }
{}

/// The interval of an operation at operands that are not empty isn't empty.
pub fn operations_are_non_empty()
    ensures unary { (o : UnaryOperation) (i : IntegerInterval) → IsNonEmpty i
        → IsNonEmpty (unary_interval o i) }
    ensures binary { (o : BinaryOperation) (i j : IntegerInterval) → IsDefined o j → IsNonEmpty i
        → IsNonEmpty j → IsNonEmpty (binary_interval o i j) }
    ensures hull { (i j : IntegerInterval) → IsNonEmpty i ⊎ IsNonEmpty j → IsNonEmpty (hull i j) }
{}

/// Operands within larger ones give a result within the larger operands' result; the operands are
/// not empty.
pub fn operations_are_monotone()
    ensures unary { (o : UnaryOperation) (i k : IntegerInterval) → IsNonEmpty i → IsWithin i k
        → IsWithin (unary_interval o i) (unary_interval o k) }
    ensures binary { (o : BinaryOperation) (i j k l : IntegerInterval) → IsDefined o l
        → IsNonEmpty i → IsNonEmpty j → IsWithin i k → IsWithin j l
        → IsWithin (binary_interval o i j) (binary_interval o k l) }
    ensures hull { (i j k l : IntegerInterval) → IsWithin i k → IsWithin j l
        → IsWithin (hull i j) (hull k l) }
    ensures cut { (i k range : IntegerInterval) → IsWithin i k
        → IsWithin (cut i range) (cut k range) }

    // No smaller interval has the values of both.
    ensures least { (i j outer : IntegerInterval) → IsWithin i outer → IsWithin j outer
        → IsWithin (hull i j) outer }
{}
