//! Whether the arguments of a call have the values of an instance.

ghost use Rattle.std.specs.Prelude.{◌≡◌, length, map};
ghost use Rattle.std.specs.Cmp.Lexicographic.{pointwise};
ghost use Rattle.std.specs.Ordering.{int_eq};
ghost use Rattle.pb_typing_tree.specs.Fits.{AllFit};
ghost use Rattle.pb_typing_tree.specs.View.{argument_view};
ghost use Rattle.pb_typing_values.specs.Slots.{slots_of};
ghost use Rattle.pb_typing_calls.specs.Made.{argument_values};

use pb_typing_tree::Argument;
use pb_typing_values::value;

/// Whether arguments have these values, one each.
pub(crate) fn have_values(arguments: &[Argument], slots: &[i64], values: &[i64]) -> bool
    requires { AllFit (length slots.now) (slots_of slots.now) (map argument_view arguments.now) }
    ensures { result ≡ pointwise int_eq (argument_values (slots_of slots.now)
        (map argument_view arguments.now)) values.now }
{
    if arguments.len() != values.len() {
        return false;
    }
    for index in 0..arguments.len() {
        if value(&arguments[index].term, slots) != values[index] {
            return false;
        }
    }
    true
}
