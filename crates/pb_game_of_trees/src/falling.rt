//! Lists of numbers in order, each once.
ghost use Rattle.std.specs.Prelude.{◌≡◌, ◌++◌, OnOk, reverse, IsTrue, ◌↔◌};
ghost use Rattle.pb_fixpoint_trees.specs.Game.{rising};
ghost use Rattle.pb_game_of_trees.specs.Falling.{IsFalling};

use pb_fixpoint_trees::push;
use std::alloc::AllocError;

/// Adds the numbers of a list that is read from its end: rising, each once, and the last first.
pub(crate) fn push_falling(list: &mut Vec<u32>, numbers: &mut [u32]) -> Result<(), AllocError>
    ensures { OnOk result (list.new.items ≡ list.old.items
        ++ reverse (rising (reverse numbers.old))) }
{
    if !is_falling(numbers) {
        numbers.sort_unstable();
        numbers.reverse();
    }
    push_each_once(list, numbers)
}

/// Whether no number is below the next.
fn is_falling(numbers: &[u32]) -> bool
    ensures { IsTrue result ↔ IsFalling numbers.now }
{
    for k in 1..numbers.len() {
        if numbers[k - 1] < numbers[k] {
            return false;
        }
    }
    true
}

/// Adds numbers that fall, each once.
fn push_each_once(list: &mut Vec<u32>, numbers: &[u32]) -> Result<(), AllocError>
    requires { IsFalling numbers.now }
    ensures { OnOk result (list.new.items ≡ list.old.items
        ++ reverse (rising (reverse numbers.now))) }
{
    for k in 0..numbers.len() {
        if k > 0 && numbers[k - 1] == numbers[k] {
            continue;
        }
        push(list, numbers[k])?;
    }
    Ok(())
}
