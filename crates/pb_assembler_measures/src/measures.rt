//! How much an equation's code takes of the machine's limits, and the first that it exceeds.

ghost use Rattle.std.specs.Prelude.{◌≡◌};
ghost use Rattle.pb_assembler_measures.specs.Measures.{first_excess};

use pb_base::{
    MAX_BRACKETS, MAX_INSTRUCTIONS, MAX_LOOP_SLOTS, MAX_LOOPS, MAX_OPERANDS, MAX_STEPS, MAX_TOKENS,
};
use pb_bytecode::Limit;

/// How much an equation's code takes of each. What is above a limit is counted no further than just
/// above it.
#[derive(Clone, Copy)]
pub struct Measures {
    pub instructions: u32,
    pub operands: u32,
    pub brackets: u32,
    pub nesting: u32,
    pub slots: u32,
    pub steps: u32,
    pub tokens: u32,
}

/// The first limit that the code exceeds, if there is one: C01, C02, C03, C04, C05 or C06.
pub(crate) fn first_excess(measures: &Measures) -> Option<Limit>
    ensures { result ≡ first_excess measures.now }
{
    if measures.instructions as usize > MAX_INSTRUCTIONS {
        return Some(Limit::Instructions);
    }
    if measures.operands > MAX_OPERANDS as u32 {
        return Some(Limit::Operands);
    }
    if measures.brackets as usize > MAX_BRACKETS {
        return Some(Limit::Brackets);
    }
    if measures.nesting > MAX_LOOPS as u32 || measures.slots > MAX_LOOP_SLOTS as u32 {
        return Some(Limit::Loops);
    }
    if measures.steps as usize > MAX_STEPS {
        return Some(Limit::Steps);
    }
    if measures.tokens as usize > MAX_TOKENS {
        return Some(Limit::Tokens);
    }
    None
}
