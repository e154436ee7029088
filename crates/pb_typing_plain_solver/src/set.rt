//! The set of one equation, among the truths of all instances.

ghost use Rattle.std.specs.Prelude.{◌≡◌, ◌≤◌, ◌+◌, not, true, false, length, Some, IfOk, OnOk};
ghost use Rattle.std.specs.Prelude.{IsTrue};
ghost use Rattle.std.specs.List.{slice_get};
ghost use Rattle.pb_text_tree.specs.Form.{spec_form};
ghost use Rattle.pb_sorts.specs.Instance.{first_of, owns_number, size_of};
ghost use Rattle.pb_sorts.specs.Layout.{carriers_of, count_of};
ghost use Rattle.pb_sorts.specs.declared.counting.TheConstants.{MAX_NUMBERS};
ghost use Rattle.pb_text_meaning.specs.Erase.{erase};
ghost use Rattle.pb_text_meaning.specs.Syntax as syntax;
ghost use Rattle.pb_typing_values.specs.Environment.{environment_of};
ghost use Rattle.pb_typing_plain_solver.specs.Side.{side_of};
ghost use Rattle.pb_typing_plain_solver.specs.Step.{AreSlots, ChangesOnly, JoinsRight, TakesSet};
ghost use Rattle.pb_typing_plain_solver.specs.Step.{right_truth_at};

use crate::turn::Turn;
use pb_fixpoint::Sign;
use pb_typing_values::{Environment, formula_truth};
use std::alloc::AllocError;

/// The numbers of an equation's instances: those from `start` on, below `end`.
#[derive(Clone, Copy)]
struct Numbers {
    pub start: usize,
    pub end: usize,
}

/// The numbers of an equation's instances.
fn numbers_of(turn: &Turn<'_>) -> Numbers
    ensures start { result.start
        ≡ first_of (carriers_of turn.now.typed.now.layout) turn.now.equation }
    ensures end { result.end ≡ first_of (carriers_of turn.now.typed.now.layout) turn.now.equation
        + size_of (carriers_of turn.now.typed.now.layout) turn.now.equation }
    ensures within { result.end ≤ count_of turn.now.typed.now.layout }
    ensures few { result.end ≤ MAX_NUMBERS }
{
    let all = turn.typed.layout.count() as usize;
    let start = turn.typed.layout.first(turn.equation) as usize;
    let end = start + turn.typed.layout.size(turn.equation) as usize;
    let within = end <= all;
    prove!(within);
    Numbers { start, end }
}

/// Puts an equation's set from one list of truths into another.
pub(crate) fn take_set(turn: &Turn<'_>, from: &[bool], truths: &mut [bool])
    requires from { length from.now ≡ count_of turn.now.typed.now.layout }
    requires truths { length truths.old ≡ count_of turn.now.typed.now.layout }
    ensures taken { TakesSet turn.now.typed.now.layout turn.now.equation from.now truths.new }
    ensures others { ChangesOnly turn.now.typed.now.layout turn.now.equation
        truths.old truths.new }
{
    let numbers = numbers_of(turn);
    for number in numbers.start..numbers.end {
        truths[number] = from[number];
    }
}

/// Whether two lists of truths have the same set of an equation.
pub(crate) fn same_set(turn: &Turn<'_>, left: &[bool], right: &[bool]) -> bool
    requires left { length left.now ≡ count_of turn.now.typed.now.layout }
    requires right { length right.now ≡ count_of turn.now.typed.now.layout }
    ensures { result ≡ true
        → TakesSet turn.now.typed.now.layout turn.now.equation left.now right.now }
{
    let numbers = numbers_of(turn);
    for number in numbers.start..numbers.end {
        if left[number] != right[number] {
            return false;
        }
    }
    true
}

/// Whether the steps towards a fixpoint begin at the full set.
fn starts_full(sign: Sign) -> bool
    ensures { result ≡ not (side_of sign) }
{
    match sign {
        Sign::Mu => false,
        Sign::Nu => true,
    }
}

/// Joins an equation's set with what its right side gives under an environment, and says whether
/// the set is another then. A right side is evaluated only where its truth may still change the
/// set.
///
/// # Errors
/// Memory was refused.
pub(crate) fn improve(
    turn: &Turn<'_>,
    truths: &mut [bool],
    below: &[bool],
) -> Result<bool, AllocError>
    requires truths { length truths.old ≡ count_of turn.now.typed.now.layout }
    requires below { length below.now ≡ count_of turn.now.typed.now.layout }
    ensures joins { OnOk result ((X : syntax.Equation)
        → slice_get (erase (spec_form turn.now.typed.now.spec)).equations turn.now.equation ≡ Some X
        → JoinsRight (erase (spec_form turn.now.typed.now.spec)) turn.now.typed.now.layout
        turn.now.equation X below.now truths.old truths.new) }
    ensures others { OnOk result (ChangesOnly turn.now.typed.now.layout turn.now.equation
        truths.old truths.new) }
    ensures unchanged { IfOk result (λ changed. changed ≡ false
        → TakesSet turn.now.typed.now.layout turn.now.equation truths.old truths.new) }
{
    let start = starts_full(turn.typed.spec.equations[turn.equation].sign);
    let parameters = turn.typed.layout.carriers(turn.equation).len();
    let count = parameters + turn.typed.equations[turn.equation].loops.len();
    let mut memory = vec![in *turn.typed.equations.allocator(); 0; count]?;
    let slots = memory.as_mut_slice();
    let numbers = numbers_of(turn);
    let mut changed = false;
    for number in numbers.start..numbers.end {
        if truths[number] == start {
            let holds = right_truth(turn, number as u64, slots, below);
            if holds != start {
                truths[number] = !start;
                changed = true;
            }
        }
    }
    Ok(changed)
}

/// The truth of an equation's right side at its instance with a number, whose values come to stand
/// in the first slots.
fn right_truth(turn: &Turn<'_>, number: u64, slots: &mut [i64], below: &[bool]) -> bool
    requires own { IsTrue (owns_number (carriers_of turn.now.typed.now.layout)
        turn.now.equation number) }
    requires below { length below.now ≡ count_of turn.now.typed.now.layout }
    requires slots { (X : syntax.Equation)
        → slice_get (erase (spec_form turn.now.typed.now.spec)).equations turn.now.equation ≡ Some X
        → AreSlots (erase (spec_form turn.now.typed.now.spec)) X slots.old }
    ensures truth { (X : syntax.Equation)
        → slice_get (erase (spec_form turn.now.typed.now.spec)).equations turn.now.equation ≡ Some X
        → result ≡ right_truth_at (erase (spec_form turn.now.typed.now.spec))
        (environment_of (erase (spec_form turn.now.typed.now.spec)) below.now) X
        turn.now.typed.now.layout number }
    ensures slots { (X : syntax.Equation)
        → slice_get (erase (spec_form turn.now.typed.now.spec)).equations turn.now.equation ≡ Some X
        → AreSlots (erase (spec_form turn.now.typed.now.spec)) X slots.new }
{
    let instance = turn.typed.layout.instance(number);
    let count = instance.values.len();
    slots[..count].copy_from_slice(&instance.values);
    let environment = Environment {
        layout: &turn.typed.layout,
        truths: below,
    };
    formula_truth(
        &turn.typed.equations[turn.equation].right,
        slots,
        &environment,
    )
}
