//! The values that the variables of a quantifier run through: the tuples of their carriers, in
//! order, the last place fastest. All of them stand in one list, so that no evaluation calls itself
//! once for each variable.

ghost use Rattle.std.specs.Prelude.{◌≡◌, ◌+◌, ℕ, true, false, length, map, pos, Some};
ghost use Rattle.std.specs.List.{slice_get};
ghost use Rattle.pb_base_values.specs.Carrier.{tuples};
ghost use Rattle.pb_sorts.specs.Carrier.{values_of};
ghost use Rattle.pb_typing_values.specs.Quantifier.{deciding_truth};

use pb_sorts::Carrier;
use pb_text_tree::Quantifier;

/// The truth for one value that decides a quantifier.
pub fn deciding(quantifier: Quantifier) -> bool
    ensures { result ≡ deciding_truth quantifier }
{
    match quantifier {
        Quantifier::Forall => false,
        Quantifier::Exists => true,
    }
}

/// Puts the first tuple of the carriers into `values`.
pub fn start(carriers: &[Carrier], values: &mut [i64])
    requires { length values.old ≡ length carriers.now }
    ensures first { slice_get (tuples (map values_of carriers.now)) 0 ≡ Some values.new }
    ensures count { length values.new ≡ length values.old }
{
    for index in 0..values.len() {
        let (least, _) = carriers[index].bounds();
        values[index] = least;
    }
}

/// Goes on to the next tuple of the carriers, and answers false where there is none.
pub fn advance(carriers: &[Carrier], values: &mut [i64]) -> bool
    requires { length values.old ≡ length carriers.now }
    ensures next { (k : ℕ) → slice_get (tuples (map values_of carriers.now)) k ≡ Some values.old
        → result ≡ true → slice_get (tuples (map values_of carriers.now)) (k + 1)
        ≡ Some values.new }
    ensures last { (k : ℕ) → slice_get (tuples (map values_of carriers.now)) k ≡ Some values.old
        → result ≡ false → length (tuples (map values_of carriers.now)) ≡ k + 1 }
    ensures count { length values.new ≡ length values.old }
{
    for index in (0..values.len()).rev() {
        let (least, greatest) = carriers[index].bounds();
        let value = values[index];
        if value < greatest {
            values[index] = value + 1;
            return true;
        }
        values[index] = least;
    }
    false
}

/// Puts 0 at each place.
pub fn clear(values: &mut [i64])
    ensures { values.new ≡ map (λ v. pos 0) values.old }
{
    for index in 0..values.len() {
        values[index] = 0;
    }
}
