//! Static counts: how many steps a run takes at most, and how many tokens it writes, an instruction
//! in loops counting as often as their bodies run.

ghost use Rattle.std.specs.Prelude.{◌≡◌, ◌+◌, ◌-◌, ◌*◌, ◌<◌, ◌≤◌, ◌↔◌, IsSome, IsTrue, Some, min};
ghost use Rattle.std.specs.Prelude.{length, slice_index_or};
ghost use Rattle.pb_bytecode_program.specs.Counts.{carrier_size, static_steps, static_tokens};
ghost use Rattle.pb_bytecode_program.specs.Counts.{tokens_of as tokens_written};
ghost use Rattle.pb_bytecode_program.specs.Machine.{Program, carrier_of};
ghost use Rattle.pb_verifier_structure.specs.Structure.{IsStructured};
ghost use Rattle.pb_verifier_structure.specs.Views.{IsProgramOf};

use crate::equation_code::EquationCode;
use arrayvec::ArrayVec;
use pb_base::{MAX_LOOPS, MAX_STEPS};
use pb_bytecode_program::Op;

/// The count at which counting stops. It is above the limits of stated counts, `MAX_STEPS` and
/// `MAX_TOKENS`, so that a comparison with a count within these is exact.
pub const SATURATED: u64 = MAX_STEPS as u64 + 1;

/// The static counts of code; in place of one above `SATURATED` stands that.
#[derive(Clone, Copy, PartialEq, Eq)]
pub struct StaticCounts {
    pub steps: u64,
    pub tokens: u64,
}

fn sum(a: u64, b: u64) -> u64
    ensures { result ≡ min (a + b) SATURATED }
{
    a.saturating_add(b).min(SATURATED)
}

fn product(a: u64, b: u64) -> u64
    ensures { result ≡ min (a * b) SATURATED }
{
    a.saturating_mul(b).min(SATURATED)
}

// How many tokens an instruction writes.
fn tokens_of(instruction: Op) -> u64
    ensures { result ≡ tokens_written instruction }
{
    match instruction {
        Op::Open(_) | Op::Close | Op::Emit(_) | Op::Call { equation: _ } => 1,
        _ => 0,
    }
}

// How often the loop of a slot runs its body.
fn turns(code: &EquationCode, slot: u8) -> u64
    requires { (p : Program) × IsProgramOf p code.now × IsSome (carrier_of p slot) }
    ensures { (p : Program) → IsProgramOf p code.now → result ≡ carrier_size (carrier_of p slot) }
{
    code.loops[slot as usize - code.parameters.len()].size()
}

// How often an instruction runs, given this for each of the loops around it, the innermost last.
fn multiplier(weights: &[u64]) -> u64
    ensures { result ≡ slice_index_or weights.now (length weights.now - 1) 1 }
{
    match weights.last() {
        Some(weight) => *weight,
        None => 1,
    }
}

/// The static counts of code that keeps the rules by position; fewer may not be stated (V16).
pub fn static_counts(code: &EquationCode) -> StaticCounts
    requires { (p : Program) → IsProgramOf p code.now → IsStructured p }
    ensures steps { (p : Program) → IsProgramOf p code.now
        → result.steps ≡ min (static_steps p) SATURATED }
    ensures tokens { (p : Program) → IsProgramOf p code.now
        → result.tokens ≡ min (static_tokens p) SATURATED }
{
    let mut weights: ArrayVec<u64, MAX_LOOPS> = ArrayVec::new();
    let mut steps = 0;
    let mut tokens = 0;
    for instruction in code.instructions {
        let weight = multiplier(weights.as_slice());
        steps = sum(steps, weight);
        tokens = sum(tokens, product(weight, tokens_of(*instruction)));
        match *instruction {
            Op::Loop { slot } => weights.push(product(weight, turns(code, slot))),
            Op::Next => weights.truncate(weights.len() - 1),
            _ => {}
        }
    }
    StaticCounts { steps, tokens }
}
