//! How many states there are: the values of each variable, once for each of its elements.

ghost use Rattle.std.specs.Prelude.{◌≡◌, ◌*◌, ◌^◌, ◌≤◌, ◌++◌, IfOk, OnOk, flat_map, string_bytes};
ghost use Rattle.pb_typing_declarations.specs.View.{spec_of};
ghost use Rattle.pb_protocol_tree.specs.Form.{state_variables_form};
ghost use Rattle.pb_model_sizes.specs.Counts.{element_sum, state_product};
ghost use Rattle.pb_model_sizes.specs.Numbers.{number_in};
ghost use Rattle.pb_model_sizes.specs.Sizes.{states_lines};

use crate::count::{push_count, tuples_of, value_count};
use crate::number::{MAX_FACTOR, Number};
use crate::state::elements_of;
use pb_protocol_tree::StateVariables;
use pb_typing_declarations::Declarations;
use std::alloc::{AllocError, Global};

/// Of so many elements the states are multiplied out.
pub const MAX_MULTIPLIED: u64 = 999;

/// A number, times a power of a number of values.
fn raised(alloc: Global, number: Number, size: u64, count: u64) -> Result<Number, AllocError>
    requires { size ≤ MAX_FACTOR }
    ensures { IfOk result (λ n. number_in n ≡ number_in number * size ^ count) }
{
    let mut product = number;
    for turn in 0..count {
        product = product.times(alloc, size)?;
    }
    Ok(product)
}

/// A number, times the states of a group of variables.
fn times_group(
    alloc: Global,
    declarations: &Declarations<'_>,
    number: Number,
    group: &StateVariables,
) -> Result<Number, AllocError>
    requires { element_sum (spec_of declarations.now) (state_variables_form group.now)
        ≤ MAX_MULTIPLIED }
    ensures { IfOk result (λ n. number_in n ≡ number_in number
        * state_product (spec_of declarations.now) (state_variables_form group.now)) }
{
    let size = value_count(declarations, &group.sort);
    let mut product = number;
    for variable in &group.variables {
        let count = tuples_of(declarations, &variable.indices);
        product = raised(alloc, product, size, count)?;
    }
    Ok(product)
}

/// How many states there are.
fn states_of(
    alloc: Global,
    declarations: &Declarations<'_>,
    groups: &[StateVariables],
) -> Result<Number, AllocError>
    requires { element_sum (spec_of declarations.now) (flat_map state_variables_form groups.now)
        ≤ MAX_MULTIPLIED }
    ensures { IfOk result (λ n. number_in n
        ≡ state_product (spec_of declarations.now) (flat_map state_variables_form groups.now)) }
{
    let mut product = Number::one(alloc)?;
    for group in groups {
        product = times_group(alloc, declarations, product, group)?;
    }
    Ok(product)
}

/// Writes how many elements and states there are.
pub(crate) fn push_states(
    alloc: Global,
    lines: &mut String,
    declarations: &Declarations<'_>,
    groups: &[StateVariables],
) -> Result<(), AllocError>
    ensures { OnOk result (string_bytes lines.new ≡ string_bytes lines.old
        ++ states_lines (spec_of declarations.now) (flat_map state_variables_form groups.now)) }
{
    let elements = elements_of(declarations, groups);
    lines.push_str("elements ")?;
    push_count(lines, elements)?;
    lines.push_str("\n")?;
    if elements > MAX_MULTIPLIED {
        return Ok(());
    }
    let states = states_of(alloc, declarations, groups)?;
    lines.push_str("states ")?;
    states.push(lines)?;
    lines.push_str("\n")
}
