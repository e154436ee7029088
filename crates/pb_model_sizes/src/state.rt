//! The state variables: how many values each has, and how many elements an array.

ghost use Rattle.std.specs.Prelude.{◌≡◌, ◌+◌, ◌==◌, ◌++◌, OnOk, flat_map, length, string_bytes};
ghost use Rattle.pb_text_tree.specs.Form.{named, variable_forms};
ghost use Rattle.pb_typing_declarations.specs.View.{spec_of};
ghost use Rattle.pb_protocol_tree.specs.Form.{state_variables_form};
ghost use Rattle.pb_model_sizes.specs.Counts.{element_sum, capped};
ghost use Rattle.pb_model_sizes.specs.Sizes.{power_text, state_line, variable_line};

use crate::count::{push_count, tuples_of, value_count};
use pb_protocol_tree::{StateVariable, StateVariables};
use pb_text_tree::Variables;
use pb_typing_declarations::Declarations;
use std::alloc::AllocError;

/// Whether a list declares no variable.
fn declares_none(groups: &[Variables]) -> bool
    ensures { result ≡ (length (variable_forms groups.now) == 0) }
{
    for group in groups {
        if !group.names.is_empty() {
            return false;
        }
    }
    true
}

/// Writes how many elements an array with these indices has, and nothing of a plain variable.
fn push_power(
    lines: &mut String,
    declarations: &Declarations<'_>,
    indices: &[Variables],
) -> Result<(), AllocError>
    ensures { OnOk result (string_bytes lines.new ≡ string_bytes lines.old
        ++ power_text (spec_of declarations.now) (variable_forms indices.now)) }
{
    if declares_none(indices) {
        return Ok(());
    }
    lines.push_str(" ^ ")?;
    push_count(lines, tuples_of(declarations, indices))
}

/// Writes the line of a variable whose sort has so many values.
fn push_variable(
    lines: &mut String,
    declarations: &Declarations<'_>,
    size: u64,
    variable: &StateVariable,
) -> Result<(), AllocError>
    ensures { OnOk result (string_bytes lines.new ≡ string_bytes lines.old
        ++ variable_line (spec_of declarations.now) size (named variable.now.name).text
        (variable_forms variable.now.indices.items)) }
{
    let name = variable.name.text.as_str();
    write!(lines, "state {name} {size}")?;
    push_power(lines, declarations, &variable.indices)?;
    lines.push_str("\n")
}

fn push_group(
    lines: &mut String,
    declarations: &Declarations<'_>,
    group: &StateVariables,
) -> Result<(), AllocError>
    ensures { OnOk result (string_bytes lines.new ≡ string_bytes lines.old
        ++ flat_map (state_line (spec_of declarations.now)) (state_variables_form group.now)) }
{
    let size = value_count(declarations, &group.sort);
    for variable in &group.variables {
        push_variable(lines, declarations, size, variable)?;
    }
    Ok(())
}

/// Writes the lines of the state variables.
pub(crate) fn push_state(
    lines: &mut String,
    declarations: &Declarations<'_>,
    groups: &[StateVariables],
) -> Result<(), AllocError>
    ensures { OnOk result (string_bytes lines.new ≡ string_bytes lines.old
        ++ flat_map (state_line (spec_of declarations.now))
        (flat_map state_variables_form groups.now)) }
{
    for group in groups {
        push_group(lines, declarations, group)?;
    }
    Ok(())
}

/// So many elements and those of a group of variables.
fn plus_group(elements: u64, declarations: &Declarations<'_>, group: &StateVariables) -> u64
    ensures { result ≡ capped (elements
        + element_sum (spec_of declarations.now) (state_variables_form group.now)) }
{
    let mut sum = elements;
    for variable in &group.variables {
        sum = sum.saturating_add(tuples_of(declarations, &variable.indices));
    }
    sum
}

/// How many elements the state variables have together.
pub(crate) fn elements_of(declarations: &Declarations<'_>, groups: &[StateVariables]) -> u64
    ensures { result ≡ capped
        (element_sum (spec_of declarations.now) (flat_map state_variables_form groups.now)) }
{
    let mut elements: u64 = 0;
    for group in groups {
        elements = plus_group(elements, declarations, group);
    }
    elements
}
