//! The instance that a module asks for.

ghost use Rattle.std.specs.Prelude.{◌≡◌, ◌++◌, ◌∷◌, [], true, IfOk, OnOk};
ghost use Rattle.std.specs.List.{list_all};
ghost use Rattle.pb_typing_tree.specs.InitialPlace.{initial_place, initial_values};
ghost use Rattle.pb_normal.specs.Text.{said};
ghost use Rattle.pb_bytecode.specs.Limits.{is_byte, is_i64};

use pb_bytecode::Initial;
use pb_normal::Normal;
use std::alloc::{AllocError, Global};

/// Adds a value.
fn push_value(values: &mut Vec<i64>, value: i64) -> Result<(), AllocError>
    ensures pushed { OnOk result (values.new.items ≡ values.old.items ++ value ∷ []) }
    ensures fits { is_i64 value ≡ true }
{
    values.push(value)?;
    Ok(())
}

/// The place of an equation.
fn copy_place(place: u8) -> u8
    ensures same { result ≡ place }
    ensures fits { is_byte result ≡ true }
{
    place
}

/// The initial instance of a text.
///
/// # Errors
/// Memory was refused.
pub(crate) fn initial(alloc: Global, normal: &Normal<'_>) -> Result<Initial, AllocError>
    ensures equation { IfOk result (λ i. i.equation ≡ initial_place (said normal.now.typed.now)) }
    ensures values { IfOk result (λ i. i.values.items
        ≡ initial_values (said normal.now.typed.now)) }
    ensures byte { IfOk result (λ i. is_byte i.equation ≡ true) }
    ensures words { IfOk result (λ i. list_all is_i64 i.values.items ≡ true) }
{
    let instance = &normal.typed.initial;
    let equation = copy_place(instance.equation);
    let mut values = Vec::with_capacity(alloc, instance.values.len())?;
    for value in &instance.values {
        push_value(&mut values, *value)?;
    }
    Ok(Initial { equation, values })
}
