//! How much the code of a text's equations takes, and the first equation whose code exceeds a limit
//! of the machine.

ghost use Rattle.std.specs.Prelude.{◌≡◌, ◌++◌, ◌∷◌, [], IfOk, OnOk};
ghost use Rattle.pb_normal.specs.Text.{said};
ghost use Rattle.pb_assembler_measures.specs.MeasureEquations.{AreMeasuresOfAll, EachKeepsLimits};
ghost use Rattle.pb_assembler_measures.specs.Excess.{IsFirstExcess};
ghost use Rattle.pb_base.specs.OrMemory.{IfRefused};

use crate::compile_error::{CompileError, Excess};
use crate::measure_equation::measure;
use crate::measures::{Measures, first_excess};
use pb_normal::Normal;
use std::alloc::{AllocError, Global};

/// Adds the measures of an equation.
fn push_measures(all: &mut Vec<Measures>, measures: Measures) -> Result<(), AllocError>
    ensures { OnOk result (all.new.items ≡ all.old.items ++ measures ∷ []) }
{
    all.push(measures)?;
    Ok(())
}

/// How much the code of each equation of a text takes.
///
/// # Errors
/// An excess where the code of an equation exceeds a limit: the first such equation, with the least
/// of its limits. `Memory` only where memory was refused.
pub fn measures_within_limits(
    alloc: Global,
    normal: &Normal<'_>,
) -> Result<Vec<Measures>, CompileError>
    ensures measured { IfOk result (λ all. AreMeasuresOfAll normal.now.typed.now.layout
        normal.now.equations.items all.items) }
    ensures kept { IfOk result (λ all. EachKeepsLimits (said normal.now.typed.now)) }
    ensures refused { IfRefused result (IsFirstExcess (said normal.now.typed.now)) }
{
    let layout = &normal.typed.layout;
    let mut all = Vec::with_capacity(alloc, normal.equations.len())?;
    for equation in &normal.equations {
        let measures = measure(layout, equation);
        if let Some(limit) = first_excess(&measures) {
            let equation = all.len();
            return Err(Excess { limit, equation }.into());
        }
        push_measures(&mut all, measures)?;
    }
    Ok(all)
}
