//! How much the code of data takes, counted no further than just above a million.

ghost use Rattle.std.specs.Prelude.{◌≡◌, ◌+◌};
ghost use Rattle.pb_assembler_measures.specs.MeasureTerms.{both, capped, capped_load, choice_load, followed};
ghost use Rattle.pb_assembler_measures.specs.MeasureTerms.{single};

use pb_base::MAX_STEPS;

/// How many instructions a term's code has, and how many operands it holds at most.
#[derive(Clone, Copy)]
pub(crate) struct Load {
    pub instructions: u32,
    pub operands: u32,
}

/// The number up to which all is counted: one more than the greatest of the machine's limits.
pub(crate) const MOST: u32 = MAX_STEPS as u32 + 1;

/// A sum.
pub(crate) fn add(a: u32, b: u32) -> u32
    ensures { result ≡ capped (a + b) }
{
    a.saturating_add(b).min(MOST)
}

/// A push of one operand.
pub(crate) fn single() -> Load
    ensures { result ≡ single }
{
    Load {
        instructions: 1,
        operands: 1,
    }
}

/// An instruction behind.
pub(crate) fn followed(load: Load) -> Load
    ensures { result ≡ capped_load (followed load) }
{
    Load {
        instructions: add(load.instructions, 1),
        operands: load.operands.min(MOST),
    }
}

/// The second one behind the first one, whose value is kept.
pub(crate) fn both(first: Load, second: Load) -> Load
    ensures { result ≡ capped_load (both first second) }
{
    Load {
        instructions: add(first.instructions, second.instructions),
        operands: first.operands.max(add(second.operands, 1)).min(MOST),
    }
}

/// The condition, and then one of the other two.
pub(crate) fn chosen(condition: Load, positive: Load, negative: Load) -> Load
    ensures { result ≡ capped_load (choice_load condition positive negative) }
{
    let two = add(positive.instructions, negative.instructions);
    let operands = positive.operands.max(negative.operands);
    Load {
        instructions: add(add(condition.instructions, two), 2),
        operands: condition.operands.max(operands).min(MOST),
    }
}
