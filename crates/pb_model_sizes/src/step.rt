//! The steps, with a copy of each for each tuple of values of its own variables.

ghost use Rattle.std.specs.Prelude.{◌≡◌, ◌++◌, OnOk, flat_map, map, string_bytes};
ghost use Rattle.pb_typing_declarations.specs.View.{spec_of};
ghost use Rattle.pb_protocol_tree.specs.Form.{step_form};
ghost use Rattle.pb_model_sizes.specs.Counts.{all_copies, capped};
ghost use Rattle.pb_model_sizes.specs.Sizes.{step_line, steps_lines};

use crate::count::{push_count, tuples_of};
use pb_protocol_tree::Step;
use pb_typing_declarations::Declarations;
use std::alloc::AllocError;

fn push_step(
    lines: &mut String,
    declarations: &Declarations<'_>,
    step: &Step,
) -> Result<(), AllocError>
    ensures { OnOk result (string_bytes lines.new ≡ string_bytes lines.old
        ++ step_line (spec_of declarations.now) (step_form step.now)) }
{
    let name = step.name.text.as_str();
    write!(lines, "step {name} ")?;
    push_count(lines, tuples_of(declarations, &step.variables))?;
    lines.push_str("\n")
}

fn push_each(
    lines: &mut String,
    declarations: &Declarations<'_>,
    steps: &[Step],
) -> Result<(), AllocError>
    ensures { OnOk result (string_bytes lines.new ≡ string_bytes lines.old
        ++ flat_map (step_line (spec_of declarations.now)) (map step_form steps.now)) }
{
    for step in steps {
        push_step(lines, declarations, step)?;
    }
    Ok(())
}

/// How many copies the steps have together.
fn copies_of(declarations: &Declarations<'_>, steps: &[Step]) -> u64
    ensures { result
        ≡ capped (all_copies (spec_of declarations.now) (map step_form steps.now)) }
{
    let mut sum: u64 = 0;
    for step in steps {
        sum = sum.saturating_add(tuples_of(declarations, &step.variables));
    }
    sum
}

/// Writes the lines of the steps.
pub(crate) fn push_steps(
    lines: &mut String,
    declarations: &Declarations<'_>,
    steps: &[Step],
) -> Result<(), AllocError>
    ensures { OnOk result (string_bytes lines.new ≡ string_bytes lines.old
        ++ steps_lines (spec_of declarations.now) (map step_form steps.now)) }
{
    push_each(lines, declarations, steps)?;
    lines.push_str("steps ")?;
    push_count(lines, copies_of(declarations, steps))?;
    lines.push_str("\n")
}
