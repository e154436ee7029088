//! Operations on whole numbers at the shapes of their operands: what comes out, or which rule
//! fails.

ghost use Rattle.std.specs.Prelude.{◌≡◌, [], ◌∷◌, true};
ghost use Rattle.pb_base_values.specs.Interval.{within, literals};
ghost use Rattle.pb_base_values.specs.Operation as operations;
ghost use Rattle.pb_typing_rules.specs.Faults.{kind_faults, operator_faults};
ghost use Rattle.pb_typing_rules.specs.Functions as functions;
ghost use Rattle.pb_typing_rules.specs.Shapes.{Computed, binary_shape, may_divide, unary_shape};
ghost use Rattle.pb_typing_declarations.specs.Shapes as model;
ghost use Rattle.pb_typing_tree.specs.View.{shape_view};
ghost use Rattle.pb_typing_nodes.specs.Found.{Finds};
ghost use Rattle.pb_typing_nodes.specs.View.{binary_operation, unary_operation};

use pb_base_values::Interval;
use pb_text_tree::Place;
use pb_typing_declarations::{TypingFault, TypingRule, require};
use pb_typing_tree::Shape;

/// A rule that fails at a place.
pub fn fault(rule: TypingRule, place: Place) -> TypingFault
    ensures { result ≡ record { rule = rule; place = place } }
{
    TypingFault { rule, place }
}

/// An operation on one whole number.
#[derive(Clone, Copy)]
pub enum UnaryOperation {
    Negation,
    Successor,
    Predecessor,
    AbsoluteValue,
}

impl UnaryOperation {
    /// The interval of what it gives, if that is within 2^62.
    fn interval(self, operand: Interval) -> Option<Interval>
        ensures { result ≡ within literals (operations.unary_interval
            (unary_operation self) operand) }
    {
        let limits = Interval::literals();
        match self {
            UnaryOperation::Negation => operand.negation(limits),
            UnaryOperation::Successor => operand.successor(limits),
            UnaryOperation::Predecessor => operand.predecessor(limits),
            UnaryOperation::AbsoluteValue => operand.absolute_value(limits),
        }
    }

    /// The shape of what it gives, where no rule fails.
    pub(crate) fn check(self, operand: Shape, place: Place) -> Result<Shape, TypingFault>
        ensures { Finds
            (kind_faults (functions.OfOne (unary_operation self)) (shape_view operand ∷ []) place)
            (unary_shape (unary_operation self) (shape_view operand)) result }
    {
        match operand {
            Shape::Wholes(interval) => match self.interval(interval) {
                Some(interval) => Ok(Shape::Wholes(interval)),
                None => Err(fault(TypingRule::LargeInterval, place)),
            },
            Shape::Truths => Err(fault(TypingRule::WrongKind, place)),
            Shape::Places { .. } => Err(fault(TypingRule::WrongKind, place)),
        }
    }
}

/// An operation on two whole numbers.
#[derive(Clone, Copy)]
pub(crate) enum BinaryOperation {
    Sum,
    Difference,
    Product,
    Quotient,
    Remainder,
    Maximum,
    Minimum,
}

impl BinaryOperation {
    /// Whether the numbers of an interval may be second operands: no divisor is below 1 (T09).
    fn may_divide(self, right: Interval) -> bool
        ensures { result ≡ may_divide (binary_operation self) (model.Wholes right.low right.high) }
    {
        match self {
            BinaryOperation::Quotient | BinaryOperation::Remainder => right.low() >= 1,
            BinaryOperation::Sum
            | BinaryOperation::Difference
            | BinaryOperation::Product
            | BinaryOperation::Maximum
            | BinaryOperation::Minimum => true,
        }
    }

    /// The interval of what it gives, if that is within 2^62.
    fn interval(self, left: Interval, right: Interval) -> Option<Interval>
        requires { may_divide (binary_operation self) (model.Wholes right.low right.high) ≡ true }
        ensures { result ≡ within literals (operations.binary_interval
            (binary_operation self) left right) }
    {
        let limits = Interval::literals();
        match self {
            BinaryOperation::Sum => left.sum(right, limits),
            BinaryOperation::Difference => left.difference(right, limits),
            BinaryOperation::Product => left.product(right, limits),
            BinaryOperation::Quotient => left.quotient(right, limits),
            BinaryOperation::Remainder => left.remainder(right, limits),
            BinaryOperation::Maximum => left.maximum(right, limits),
            BinaryOperation::Minimum => left.minimum(right, limits),
        }
    }

    /// The shape of what it gives, where no rule fails.
    pub(crate) fn check(self, left: Shape, right: Shape, place: Place) -> Result<Shape, TypingFault>
        ensures { Finds
            (operator_faults (Computed (binary_operation self)) (shape_view left)
            (shape_view right) place)
            (binary_shape (binary_operation self) (shape_view left) (shape_view right)) result }
    {
        match left {
            Shape::Wholes(left) => match right {
                Shape::Wholes(right) => self.check_intervals(left, right, place),
                Shape::Truths | Shape::Places { .. } => Err(fault(TypingRule::WrongKind, place)),
            },
            Shape::Truths | Shape::Places { .. } => Err(fault(TypingRule::WrongKind, place)),
        }
    }

    /// The same of two numbers of these intervals: no divisor is below 1 (T09), and the result is
    /// within 2^62 (T10).
    fn check_intervals(
        self,
        left: Interval,
        right: Interval,
        place: Place,
    ) -> Result<Shape, TypingFault>
        ensures { Finds
            (operator_faults (Computed (binary_operation self))
            (model.Wholes left.low left.high) (model.Wholes right.low right.high) place)
            (binary_shape (binary_operation self) (model.Wholes left.low left.high)
            (model.Wholes right.low right.high))
            result }
    {
        let divides = self.may_divide(right);
        require(divides, TypingRule::Divisor, place)?;
        match self.interval(left, right) {
            Some(interval) => Ok(Shape::Wholes(interval)),
            None => Err(fault(TypingRule::LargeInterval, place)),
        }
    }
}
