//! How much the code of an equation takes of what the machine limits.

ghost use Rattle.std.specs.Prelude.{◌≡◌};
ghost use Rattle.pb_assembler_measures.specs.MeasureEquations.{AreMeasuresOf, equation_measures};

use crate::bracket::outermost;
use crate::measure_formula::measure_formula;
use crate::measure_load::add;
use crate::measure_tally::Tally;
use crate::measures::Measures;
use pb_base::{
    MAX_BRACKETS, MAX_INSTRUCTIONS, MAX_LOOP_SLOTS, MAX_LOOPS, MAX_OPERANDS, MAX_TOKENS,
};
use pb_normal::Equation;
use pb_sorts::Layout;

/// The measures of an equation's code, given those of its right side and how many loop slots there
/// are.
fn bounded(tally: Tally, slots: usize) -> Measures
    ensures { result ≡ equation_measures tally slots }
{
    Measures {
        instructions: add(tally.instructions, 3).min(MAX_INSTRUCTIONS as u32 + 1),
        operands: tally.operands.min(MAX_OPERANDS as u32 + 1),
        brackets: add(tally.brackets, 1).min(MAX_BRACKETS as u32 + 1),
        nesting: tally.nesting.min(MAX_LOOPS as u32 + 1),
        slots: slots.min(MAX_LOOP_SLOTS + 1) as u32,
        steps: add(tally.steps, 3),
        tokens: add(tally.tokens, 2).min(MAX_TOKENS as u32 + 1),
    }
}

/// How much the code of an equation takes, where the equations have these parameters. It is counted
/// before any code is made, in one pass over the normal form.
pub(crate) fn measure(layout: &Layout, equation: &Equation<'_>) -> Measures
    ensures { AreMeasuresOf result layout.now equation.now }
{
    let tally = measure_formula(layout, outermost(&equation.right), &equation.right);
    bounded(tally, equation.loops.len())
}
