//! Laws of limits that stand in the crates below. The functions do nothing.

ghost use Rattle.std.specs.Prelude.{◌≡◌, pos, true};
ghost use Rattle.pb_base_values.specs.Interval.{literals};
ghost use Rattle.pb_text_tree.specs.Form.{SpecForm};
ghost use Rattle.pb_text_meaning.specs.Erase.{erase};
ghost use Rattle.pb_text_lexer.specs.Bytes.{largest_number};
ghost use Rattle.pb_typing.specs.Typed.{is_faultless};
ghost use Rattle.pb_assembler.specs.Laws.{CanBeCompiled};

use pb_normal::limits::{
    initial_instances_are_there, normal_forms_are_small, normal_forms_keep_bounds,
    shapes_are_declared, structs_are_few,
};

/// The largest number that a text may write is the greatest of the numbers that the values of terms
/// keep to.
pub fn largest_number_is_the_greatest_literal()
    ensures { pos largest_number ≡ literals.high }
{}

/// A text that typing accepts can be compiled, but for the machine's limits.
pub(crate) fn accepted_texts_can_be_compiled()
    ensures { (text : SpecForm) → is_faultless text ≡ true → CanBeCompiled (erase text) }
{
    normal_forms_keep_bounds();
    normal_forms_are_small();
    structs_are_few();
    shapes_are_declared();
    initial_instances_are_there();
}
