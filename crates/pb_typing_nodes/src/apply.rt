//! Operators and functions over typed terms: the typed term, or which rule fails, T04 or T10.

ghost use Rattle.std.specs.Prelude.{◌≡◌, [], ◌∷◌, box_value};
ghost use Rattle.pb_text_meaning.specs.Erase.{of_comparison};
ghost use Rattle.pb_typing_rules.specs.Faults.{kind_faults, operator_faults};
ghost use Rattle.pb_typing_rules.specs.Functions as functions;
ghost use Rattle.pb_typing_rules.specs.Shapes.{binary_shape, shape_hull, kind_of, may_be_truth};
ghost use Rattle.pb_typing_rules.specs.Shapes.{unary_shape};
ghost use Rattle.pb_typing_declarations.specs.Enumerators.{position_shape};
ghost use Rattle.pb_typing_declarations.specs.Faults.{unless};
ghost use Rattle.pb_typing_declarations.specs.Shapes as model;
ghost use Rattle.pb_typing_tree.specs.Tree as tree;
ghost use Rattle.pb_typing_tree.specs.View.{shape_view, term_view};
ghost use Rattle.pb_typing_nodes.specs.Elaborated.{Elaborates};
ghost use Rattle.pb_typing_nodes.specs.Found.{Finds};
ghost use Rattle.pb_typing_nodes.specs.Functions.{extreme_operation, extreme_term, operated};
ghost use Rattle.pb_typing_nodes.specs.Functions.{view_of_one, term_of_one};
ghost use Rattle.pb_typing_nodes.specs.View.{unary_operation};

use crate::function::{Extreme, FunctionOfOne};
use crate::operands::{accepted, boxed_three, boxed_two, paired};
use crate::operation::{BinaryOperation, UnaryOperation, fault};
use crate::operator::compare;
use crate::shape::{are_alike, hull, is_truth, is_whole};
use pb_text_tree::{Comparison, Place};
use pb_typing_declarations::{Enumerator, TypeError, TypingFault, TypingRule, require};
use pb_typing_tree::{Argument as TypedTerm, Shape, Term};
use std::alloc::Global;

/// A negation.
///
/// # Errors
/// The operand is no Boolean (T04), or memory was refused.
pub fn negated(alloc: Global, operand: TypedTerm, place: Place) -> Result<TypedTerm, TypeError>
    ensures { Elaborates
        (unless (may_be_truth (shape_view operand.shape)) TypingRule.WrongKind place)
        model.Truths (tree.Term.Not (term_view operand.term)) result }
{
    let test = is_truth(&operand.shape);
    let operand = accepted(operand.term, test, TypingRule::WrongKind, place)?;
    let operand = Box::new(alloc, operand)?;
    Ok(TypedTerm {
        term: Term::Not(operand),
        shape: Shape::Truths,
    })
}

/// A comparison.
///
/// # Errors
/// The operands can't be compared (T04), or memory was refused.
pub fn compared(
    alloc: Global,
    comparison: Comparison,
    left: TypedTerm,
    right: TypedTerm,
    place: Place,
) -> Result<TypedTerm, TypeError>
    ensures { Elaborates
        (operator_faults (kind_of (of_comparison comparison)) (shape_view left.shape)
        (shape_view right.shape) place) model.Truths
        (tree.Binary (of_comparison comparison) (term_view left.term) (term_view right.term))
        result }
{
    let shape = compare(comparison, left.shape, right.shape, place);
    let ((left, right), shape) = paired((left.term, right.term), shape)?;
    let (left, right) = boxed_two(alloc, left, right)?;
    Ok(TypedTerm {
        term: Term::Comparison {
            comparison,
            left,
            right,
        },
        shape,
    })
}

/// An operation on one number.
///
/// # Errors
/// The operand is no whole number (T04), what comes out isn't within 2^62 (T10), or memory was
/// refused.
pub fn operated(
    alloc: Global,
    operation: UnaryOperation,
    operand: TypedTerm,
    place: Place,
) -> Result<TypedTerm, TypeError>
    ensures { Elaborates
        (kind_faults (functions.OfOne (unary_operation operation)) (shape_view operand.shape ∷ [])
        place) (unary_shape (unary_operation operation) (shape_view operand.shape))
        (operated operation (term_view operand.term)) result }
{
    let shape = operation.check(operand.shape, place);
    let (operand, shape) = paired(operand.term, shape)?;
    let operand = Box::new(alloc, operand)?;
    Ok(TypedTerm {
        term: operation_term(operation, operand),
        shape,
    })
}

/// The term of an operation on one number.
fn operation_term(operation: UnaryOperation, operand: Box<Term>) -> Term
    ensures { term_view result ≡ operated operation (term_view (box_value operand)) }
{
    match operation {
        UnaryOperation::Negation => Term::Negative(operand),
        UnaryOperation::Successor => Term::Successor(operand),
        UnaryOperation::Predecessor => Term::Predecessor(operand),
        UnaryOperation::AbsoluteValue => Term::Absolute(operand),
    }
}

/// A function of one argument.
///
/// # Errors
/// The argument is of another kind (T04), what comes out isn't within 2^62 (T10), or memory was
/// refused.
pub fn apply_one(
    alloc: Global,
    function: FunctionOfOne,
    x: TypedTerm,
    place: Place,
) -> Result<TypedTerm, TypeError>
    ensures { Elaborates
        (kind_faults (view_of_one function) (shape_view x.shape ∷ []) place)
        (functions.shape_of_one (view_of_one function) (shape_view x.shape))
        (term_of_one function (term_view x.term)) result }
{
    match function {
        FunctionOfOne::Conversion => convert(x, place),
        FunctionOfOne::Operation(operation) => operated(alloc, operation, x, place),
        FunctionOfOne::Recogniser(enumerator) => recognise(alloc, enumerator, x, place),
    }
}

/// A number that is kept.
fn convert(x: TypedTerm, place: Place) -> Result<TypedTerm, TypeError>
    ensures { Elaborates
        (kind_faults functions.Conversion (shape_view x.shape ∷ []) place)
        (functions.kept (shape_view x.shape)) (term_view x.term) result }
{
    let test = is_whole(&x.shape);
    let x = accepted(x, test, TypingRule::WrongKind, place)?;
    Ok(x)
}

/// Whether a value is an enumerator, of whose struct it has to be (T04).
fn recognise(
    alloc: Global,
    enumerator: Enumerator,
    x: TypedTerm,
    place: Place,
) -> Result<TypedTerm, TypeError>
    ensures { Elaborates
        (kind_faults (functions.Recogniser (position_shape enumerator)) (shape_view x.shape ∷ [])
        place) model.Truths
        (tree.Recognised enumerator.sort enumerator.place (term_view x.term)) result }
{
    let own = Shape::Places {
        sort: enumerator.sort,
        count: enumerator.count,
    };
    let test = are_alike(&own, &x.shape);
    let operand = accepted(x.term, test, TypingRule::WrongKind, place)?;
    let operand = Box::new(alloc, operand)?;
    Ok(TypedTerm {
        term: Term::Recognised {
            enumerator: pb_typing_tree::Enumerator {
                sort: enumerator.sort,
                place: enumerator.place,
            },
            operand,
        },
        shape: Shape::Truths,
    })
}

/// The greater or the lesser of two numbers.
///
/// # Errors
/// An argument is no whole number (T04), or memory was refused.
pub fn apply_two(
    alloc: Global,
    extreme: Extreme,
    x: TypedTerm,
    y: TypedTerm,
    place: Place,
) -> Result<TypedTerm, TypeError>
    ensures { Elaborates
        (kind_faults (functions.OfTwo (extreme_operation extreme))
        (shape_view x.shape ∷ shape_view y.shape ∷ []) place)
        (binary_shape (extreme_operation extreme) (shape_view x.shape) (shape_view y.shape))
        (extreme_term extreme (term_view x.term) (term_view y.term)) result }
{
    let shape = extreme_shape(extreme, x.shape, y.shape, place);
    let ((x, y), shape) = paired((x.term, y.term), shape)?;
    let (x, y) = boxed_two(alloc, x, y)?;
    Ok(TypedTerm {
        term: extreme_term(extreme, x, y),
        shape,
    })
}

fn extreme_shape(
    extreme: Extreme,
    left: Shape,
    right: Shape,
    place: Place,
) -> Result<Shape, TypingFault>
    ensures { Finds
        (kind_faults (functions.OfTwo (extreme_operation extreme))
        (shape_view left ∷ shape_view right ∷ []) place)
        (binary_shape (extreme_operation extreme) (shape_view left) (shape_view right)) result }
{
    match extreme {
        Extreme::Maximum => BinaryOperation::Maximum.check(left, right, place),
        Extreme::Minimum => BinaryOperation::Minimum.check(left, right, place),
    }
}

fn extreme_term(extreme: Extreme, x: Box<Term>, y: Box<Term>) -> Term
    ensures { term_view result ≡ extreme_term extreme (term_view (box_value x))
        (term_view (box_value y)) }
{
    match extreme {
        Extreme::Maximum => Term::Maximum(x, y),
        Extreme::Minimum => Term::Minimum(x, y),
    }
}

/// One of two values, as a condition says.
///
/// # Errors
/// The condition is no Boolean, or the values are of two kinds (T04), or memory was refused.
pub fn choose(
    alloc: Global,
    condition: TypedTerm,
    x: TypedTerm,
    y: TypedTerm,
    place: Place,
) -> Result<TypedTerm, TypeError>
    ensures { Elaborates
        (kind_faults functions.Choice
        (shape_view condition.shape ∷ shape_view x.shape ∷ shape_view y.shape ∷ []) place)
        (shape_hull (shape_view x.shape) (shape_view y.shape))
        (tree.Choice (term_view condition.term) (term_view x.term) (term_view y.term)) result }
{
    let shape = choice_shape(condition.shape, x.shape, y.shape, place);
    let ((condition, x, y), shape) = paired((condition.term, x.term, y.term), shape)?;
    let (condition, positive, negative) = boxed_three(alloc, condition, x, y)?;
    Ok(TypedTerm {
        term: Term::Choice {
            condition,
            positive,
            negative,
        },
        shape,
    })
}

fn choice_shape(
    condition: Shape,
    left: Shape,
    right: Shape,
    place: Place,
) -> Result<Shape, TypingFault>
    ensures { Finds (kind_faults functions.Choice
        (shape_view condition ∷ shape_view left ∷ shape_view right ∷ []) place)
        (shape_hull (shape_view left) (shape_view right)) result }
{
    require(is_truth(&condition), TypingRule::WrongKind, place)?;
    match hull(left, right) {
        Some(shape) => Ok(shape),
        None => Err(fault(TypingRule::WrongKind, place)),
    }
}
