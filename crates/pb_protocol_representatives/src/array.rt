//! State variables as digits of a state.

ghost use Rattle.std.specs.Prelude.{◌≡◌, ◌≤◌, ◌++◌, map, IfOk, IfSome, OnOk, replicate};
ghost use Rattle.std.specs.Prelude.{true, vec_len};
ghost use Rattle.pb_protocol_tree.specs.Form.{state_variable_form, state_variables_form};
ghost use Rattle.pb_protocol_meaning.specs.Erase.{erased_state_variable, protocol_of};
ghost use Rattle.pb_protocol_scalar_sets.specs.Sorts.{spec_of};
ghost use Rattle.pb_protocol_scalar_sets.specs.View.{variable_said};
ghost use Rattle.pb_protocol_representatives.specs.Tables.{array_form, array_of, arrays_of};
ghost use Rattle.pb_protocol_representatives.specs.Tables.{index_digits, state_digits};

use crate::axis::{Axis, MAX_DIGITS, axes_of};
use crate::digit::{Digit, combinations_of, digit_of};
use pb_protocol_scalar_sets::{ScalarSet, Variable, variables_of};
use pb_protocol_tree::{StateVariable, StateVariables};
use pb_text_tree::Name;
use std::alloc::{AllocError, Global};

/// A state variable: the digits of its indices, so many of these, and the digit at each.
#[derive(Drop)]
pub(crate) struct Array {
    pub axes: Vec<Axis>,
    pub count: u64,
    pub digit: Digit,
}

/// The digits of a variable's indices.
fn index_digits(
    alloc: Global,
    set: &ScalarSet<'_>,
    indices: &[Variable<'_>],
) -> Result<Vec<Digit>, AllocError>
    ensures { IfOk result (λ digits. digits.items ≡ index_digits
        (spec_of set.now.protocol.now) set.now.sort.now (map variable_said indices.now)) }
{
    let mut digits = Vec::new(alloc);
    for index in indices {
        digits.push(digit_of(set, index.sort))?;
    }
    Ok(digits)
}

/// A variable of a sort; none where it has no index, or more than 64 bits hold.
fn array_of(
    alloc: Global,
    set: &ScalarSet<'_>,
    variable: &StateVariable,
    sort: &Name,
) -> Result<Option<Array>, AllocError>
    ensures { IfOk result (λ found. IfSome found (λ array. array_form array
        ≡ array_of (spec_of set.now.protocol.now) set.now.sort.now
        (erased_state_variable (state_variable_form sort.now variable.now)))) }
{
    let indices = variables_of(alloc, &variable.indices)?;
    let digits = index_digits(alloc, set, &indices)?;
    match combinations_of(&digits) {
        Some(count) if 0 < count => {
            let axes = axes_of(alloc, &digits, count)?;
            let digit = digit_of(set, sort.text.as_str());
            Ok(Some(Array { axes, count, digit }))
        }
        _ => Ok(None),
    }
}

/// Appends the variables of one sort, and whether all could be.
fn push_arrays(
    alloc: Global,
    set: &ScalarSet<'_>,
    group: &StateVariables,
    arrays: &mut Vec<Array>,
) -> Result<bool, AllocError>
    ensures { IfOk result (λ all. all ≡ true → map array_form arrays.new.items
        ≡ map array_form arrays.old.items ++ arrays_of (spec_of set.now.protocol.now)
        set.now.sort.now (map erased_state_variable (state_variables_form group.now))) }
{
    for variable in &group.variables {
        match array_of(alloc, set, variable, &group.sort)? {
            Some(array) => arrays.push(array)?,
            None => return Ok(false),
        }
    }
    Ok(true)
}

/// The state variables of a set's protocol; none where one has too many indices.
pub(crate) fn arrays_of(
    alloc: Global,
    set: &ScalarSet<'_>,
) -> Result<Option<Vec<Array>>, AllocError>
    ensures { IfOk result (λ found. IfSome found (λ arrays. map array_form arrays.items
        ≡ arrays_of (spec_of set.now.protocol.now) set.now.sort.now
        (protocol_of set.now.protocol.now).variables)) }
{
    let mut arrays = Vec::new(alloc);
    for group in &set.protocol.state {
        if !push_arrays(alloc, set, group, &mut arrays)? {
            return Ok(None);
        }
    }
    Ok(Some(arrays))
}

/// Appends an array's digits, and whether there was room for all.
fn push_digits(digits: &mut Vec<Digit>, array: &Array) -> Result<bool, AllocError>
    requires { vec_len digits.old ≤ MAX_DIGITS }
    ensures digits { IfOk result (λ all. all ≡ true → digits.new.items
        ≡ digits.old.items ++ replicate array.now.count array.now.digit) }
    ensures few { OnOk result (vec_len digits.new ≤ MAX_DIGITS) }
{
    for _ in 0..array.count {
        if digits.len() == MAX_DIGITS {
            return Ok(false);
        }
        digits.push(array.digit)?;
    }
    Ok(true)
}

/// The digits of a state; none where they are too many.
///
/// # Errors
/// Memory was refused.
pub(crate) fn state_digits(
    alloc: Global,
    arrays: &[Array],
) -> Result<Option<Vec<Digit>>, AllocError>
    ensures digits { IfOk result (λ found. IfSome found
        (λ digits. digits.items ≡ state_digits (map array_form arrays.now))) }
    ensures few { IfOk result (λ found. IfSome found
        (λ digits. vec_len digits ≤ MAX_DIGITS)) }
{
    let mut digits = Vec::new(alloc);
    for array in arrays {
        if !push_digits(&mut digits, array)? {
            return Ok(None);
        }
    }
    Ok(Some(digits))
}
