//! Operands that are held while more is checked or memory is asked for. What is generic in them
//! releases them in one place, whatever they are.

ghost use Rattle.std.specs.Prelude.{◌≡◌, ◌++◌, ◌∷◌, [], Contains, Err, IfOk, MatchResult, Ok};
ghost use Rattle.std.specs.Prelude.{box_value};
ghost use Rattle.pb_typing_declarations.specs.Faults.{unless};

use pb_text_tree::Place;
use pb_typing_declarations::{TypingFault, TypingRule, require};
use std::alloc::{AllocError, Global};

/// A value, if the test holds.
///
/// # Errors
/// It doesn't: the rule fails at the place.
pub fn accepted<T: Drop>(
    value: T,
    test: bool,
    rule: TypingRule,
    place: Place,
) -> Result<T, TypingFault>
    ensures { MatchResult result (λ v. (v ≡ value) × (unless test rule place ≡ []))
        (Contains (unless test rule place)) }
{
    require(test, rule, place)?;
    Ok(value)
}

/// A value and another, if that was found.
///
/// # Errors
/// It wasn't: that error.
pub fn paired<T: Drop, U, E>(value: T, other: Result<U, E>) -> Result<(T, U), E>
    ensures { MatchResult result (λ pair. (pair.0 ≡ value) × (other ≡ Ok pair.1))
        (λ error. other ≡ Err error) }
{
    match other {
        Ok(other) => Ok((value, other)),
        Err(error) => Err(error),
    }
}

/// A list with one operand more.
///
/// # Errors
/// Memory was refused.
pub fn with_last<T: Drop>(mut operands: Vec<T>, last: T) -> Result<Vec<T>, AllocError>
    ensures { IfOk result (λ more. more.items ≡ operands.items ++ last ∷ []) }
{
    operands.push(last)?;
    Ok(operands)
}

/// Two operands, each in memory of its own.
///
/// # Errors
/// Memory was refused.
pub(crate) fn boxed_two<T: Drop>(
    alloc: Global,
    left: T,
    right: T,
) -> Result<(Box<T>, Box<T>), AllocError>
    ensures { IfOk result (λ boxes. (box_value boxes.0 ≡ left) × (box_value boxes.1 ≡ right)) }
{
    let left = Box::new(alloc, left)?;
    let right = Box::new(alloc, right)?;
    Ok((left, right))
}

/// Three operands, each in memory of its own.
///
/// # Errors
/// Memory was refused.
pub(crate) fn boxed_three<T: Drop>(
    alloc: Global,
    first: T,
    second: T,
    third: T,
) -> Result<(Box<T>, Box<T>, Box<T>), AllocError>
    ensures { IfOk result (λ boxes. (box_value boxes.0 ≡ first) × (box_value boxes.1 ≡ second)
        × (box_value boxes.2 ≡ third)) }
{
    let first = Box::new(alloc, first)?;
    let (second, third) = boxed_two(alloc, second, third)?;
    Ok((first, second, third))
}
