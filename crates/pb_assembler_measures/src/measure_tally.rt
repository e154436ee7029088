//! How much the code of formulas takes, counted no further than just above a million.

ghost use Rattle.std.specs.Prelude.{◌≡◌, ◌*◌};
ghost use Rattle.pb_assembler_measures.specs.MeasureTerms.{capped, capped_load};
ghost use Rattle.pb_assembler_measures.specs.MeasureFormulas.{after, argument_load, bracketed_tally};
ghost use Rattle.pb_assembler_measures.specs.MeasureFormulas.{capped_tally, deciding_tally, ended_call};
ghost use Rattle.pb_assembler_measures.specs.MeasureFormulas.{nothing, passing, test_tally, tested_tally};
ghost use Rattle.pb_assembler_measures.specs.MeasureFormulas.{under_tally, looped};

use crate::measure_load::{Load, MOST, add};
use pb_normal::Junction;

/// How many instructions, steps and tokens a formula's code has, and how many operands, brackets
/// and loops it holds open at most.
#[derive(Clone, Copy)]
pub(crate) struct Tally {
    pub instructions: u32,
    pub operands: u32,
    pub brackets: u32,
    pub nesting: u32,
    pub steps: u32,
    pub tokens: u32,
}

/// A product.
fn times(count: u64, each: u32) -> u32
    ensures { result ≡ capped (count * each) }
{
    count.saturating_mul(each as u64).min(MOST as u64) as u32
}

/// A test alone.
pub(crate) fn test_tally(load: Load) -> Tally
    ensures { result ≡ capped_tally (test_tally load) }
{
    let length = add(load.instructions, 2);
    Tally {
        instructions: length,
        operands: load.operands.min(MOST),
        brackets: 0,
        nesting: 0,
        steps: length,
        tokens: 1,
    }
}

/// A test that passes over what follows.
fn passing(load: Load, rest: Tally) -> Tally
    ensures { result ≡ capped_tally (passing load rest) }
{
    Tally {
        instructions: add(add(load.instructions, rest.instructions), 1),
        operands: load.operands.max(rest.operands).min(MOST),
        brackets: rest.brackets.min(MOST),
        nesting: rest.nesting.min(MOST),
        steps: add(add(load.instructions, rest.steps), 1),
        tokens: rest.tokens.min(MOST),
    }
}

/// A test that writes the deciding leaf in place of what follows.
fn deciding(load: Load, rest: Tally) -> Tally
    ensures { result ≡ capped_tally (deciding_tally load rest) }
{
    Tally {
        instructions: add(add(load.instructions, rest.instructions), 3),
        operands: load.operands.max(rest.operands).min(MOST),
        brackets: rest.brackets.min(MOST),
        nesting: rest.nesting.min(MOST),
        steps: add(add(load.instructions, rest.steps), 3),
        tokens: add(rest.tokens, 1),
    }
}

/// A test joined with what follows under the bracket that is open.
pub(crate) fn tested_tally(junction: Junction, around: Junction, load: Load, rest: Tally) -> Tally
    ensures { result ≡ capped_tally (tested_tally junction around load rest) }
{
    if junction == around {
        deciding(load, rest)
    } else {
        passing(load, rest)
    }
}

fn bracketed(tally: Tally) -> Tally
    ensures { result ≡ capped_tally (bracketed_tally tally) }
{
    Tally {
        instructions: add(tally.instructions, 2),
        operands: tally.operands.min(MOST),
        brackets: add(tally.brackets, 1),
        nesting: tally.nesting.min(MOST),
        steps: add(tally.steps, 2),
        tokens: add(tally.tokens, 2),
    }
}

fn same(tally: Tally) -> Tally
    ensures { result ≡ capped_tally tally }
{
    Tally {
        instructions: tally.instructions.min(MOST),
        operands: tally.operands.min(MOST),
        brackets: tally.brackets.min(MOST),
        nesting: tally.nesting.min(MOST),
        steps: tally.steps.min(MOST),
        tokens: tally.tokens.min(MOST),
    }
}

/// What joins, in a bracket of its own unless one of its kind is open already.
pub(crate) fn under_tally(junction: Junction, around: Junction, tally: Tally) -> Tally
    ensures { result ≡ capped_tally (under_tally junction around tally) }
{
    if junction == around {
        same(tally)
    } else {
        bracketed(tally)
    }
}

/// One behind the other.
pub(crate) fn after(first: Tally, second: Tally) -> Tally
    ensures { result ≡ capped_tally (after first second) }
{
    Tally {
        instructions: add(first.instructions, second.instructions),
        operands: first.operands.max(second.operands).min(MOST),
        brackets: first.brackets.max(second.brackets).min(MOST),
        nesting: first.nesting.max(second.nesting).min(MOST),
        steps: add(first.steps, second.steps),
        tokens: add(first.tokens, second.tokens),
    }
}

/// In a loop over so many values.
#[tactic(auto, using(crate::proofs::MeasureTallies::steps_capped))]
pub(crate) fn looped(count: u64, body: Tally) -> Tally
    ensures { result ≡ capped_tally (looped count body) }
{
    Tally {
        instructions: add(body.instructions, 2),
        operands: body.operands.min(MOST),
        brackets: body.brackets.min(MOST),
        nesting: add(body.nesting, 1),
        steps: add(times(count, add(body.steps, 1)), 1),
        tokens: times(count, body.tokens),
    }
}

/// An argument in front of those that follow it.
pub(crate) fn argument_load(tested: bool, later: bool, load: Load, rest: Load) -> Load
    ensures { result ≡ capped_load (argument_load tested later load rest) }
{
    let more = match (tested, later) {
        (true, _) => 2,
        (false, true) => 1,
        (false, false) => 0,
    };
    Load {
        instructions: add(add(load.instructions, rest.instructions), more),
        operands: load.operands.max(add(rest.operands, 1)).min(MOST),
    }
}

/// No argument.
pub(crate) fn nothing() -> Load
    ensures { result ≡ nothing }
{
    Load {
        instructions: 0,
        operands: 0,
    }
}

/// The arguments of a call, and the call.
pub(crate) fn ended_call(any: bool, load: Load) -> Tally
    ensures { result ≡ capped_tally (ended_call any load) }
{
    let (length, tokens) = if any {
        (add(load.instructions, 3), 2)
    } else {
        (add(load.instructions, 1), 1)
    };
    Tally {
        instructions: length,
        operands: load.operands.min(MOST),
        brackets: 0,
        nesting: 0,
        steps: length,
        tokens,
    }
}
