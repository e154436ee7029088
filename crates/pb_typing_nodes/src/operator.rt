//! Operators at the shapes of their operands.

ghost use Rattle.std.specs.Prelude.{◌≡◌};
ghost use Rattle.pb_text_meaning.specs.Erase.{of_comparison};
ghost use Rattle.pb_typing_rules.specs.Faults.{operator_faults};
ghost use Rattle.pb_typing_rules.specs.Shapes.{Computed, binary_shape, kind_of};
ghost use Rattle.pb_typing_declarations.specs.Shapes as model;
ghost use Rattle.pb_typing_tree.specs.View.{shape_view};
ghost use Rattle.pb_typing_nodes.specs.Found.{Finds, Judges};
ghost use Rattle.pb_typing_nodes.specs.View.{binary_operation, operation_of};

use crate::operation::BinaryOperation;
use crate::shape::{are_alike, is_whole};
use pb_text_tree::{Arithmetic, Comparison, Place};
use pb_typing_declarations::{TypeError, TypingFault, TypingRule, require};
use pb_typing_tree::Shape;

/// A comparison of two values, of one kind, or numbers where an order is asked for (T04).
pub(crate) fn compare(
    comparison: Comparison,
    left: Shape,
    right: Shape,
    place: Place,
) -> Result<Shape, TypingFault>
    ensures { Finds
        (operator_faults (kind_of (of_comparison comparison)) (shape_view left)
        (shape_view right) place) model.Truths
        result }
{
    let accepted = match comparison {
        Comparison::Equal | Comparison::NotEqual => are_alike(&left, &right),
        Comparison::Less | Comparison::LessEqual | Comparison::Greater | Comparison::GreaterEqual =>
            is_whole(&left) && is_whole(&right),
    };
    require(accepted, TypingRule::WrongKind, place)?;
    Ok(Shape::Truths)
}

/// The operation of an operator.
fn operation_of(operator: Arithmetic) -> BinaryOperation
    ensures { binary_operation result ≡ operation_of operator }
{
    match operator {
        Arithmetic::Plus => BinaryOperation::Sum,
        Arithmetic::Minus => BinaryOperation::Difference,
        Arithmetic::Times => BinaryOperation::Product,
        Arithmetic::Div => BinaryOperation::Quotient,
        Arithmetic::Mod => BinaryOperation::Remainder,
    }
}

/// The shape of an operation on two numbers.
///
/// # Errors
/// An operand is no whole number (T04), a divisor may be below 1 (T09), or what comes out isn't
/// within 2^62 (T10).
pub fn compute(
    operator: Arithmetic,
    left: Shape,
    right: Shape,
    place: Place,
) -> Result<Shape, TypeError>
    ensures { Judges
        (operator_faults (Computed (operation_of operator)) (shape_view left)
        (shape_view right) place)
        (binary_shape (operation_of operator) (shape_view left) (shape_view right)) result }
{
    let shape = operation_of(operator).check(left, right, place)?;
    Ok(shape)
}
