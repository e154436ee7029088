//! Code of calls.

ghost use Rattle.std.specs.Prelude.{◌≡◌, ◌<◌, true, length, map, option_map, OnOk};
ghost use Rattle.pb_typing_tree.specs.View.{argument_view};
ghost use Rattle.pb_assembler_scheme.specs.Scheme.{arguments_piece, call_piece};
ghost use Rattle.pb_assembler.specs.Emitted.{Emits, block_end, called_piece, is_label, nowhere};
ghost use Rattle.pb_normal.specs.Small.{are_small};

use crate::emission::emit_plain;
use crate::term::emit_term;
use pb_assembler_builder::{Builder, Jump, Label};
use pb_assembler_measures::{any_tested, tested_range};
use pb_bytecode_program::{Leaf, Op};
use pb_sorts::Carrier;
use pb_typing_tree::Argument;
use std::alloc::AllocError;

/// A call of the equation at a place, and the end of the block around it, if there is one.
#[derive(Clone, Copy)]
struct Called {
    equation: u8,
    end: Option<Label>,
}

/// The call, and the jump to the end of the block around it, if there is one.
fn emit_called(builder: &mut Builder, called: Called) -> Result<(), AllocError>
    requires { is_label (length builder.old.places) (option_map (λ l. l.number) called.end)
        ≡ true }
    ensures { OnOk result
        (Emits (called_piece called.equation (option_map (λ l. l.number) called.end))
        (block_end (option_map (λ l. l.number) called.end)) builder.old builder.new) }
{
    let equation = called.equation;
    builder.emit(Op::Call { equation })?;
    match called.end {
        Some(end) => builder.emit_jump(Jump::Always, end),
        None => Ok(()),
    }
}

/// The arguments for these parameters with their tests, and the call behind them all.
fn emit_arguments(
    builder: &mut Builder,
    carriers: &[Carrier],
    arguments: &[Argument],
    called: Called,
) -> Result<(), AllocError>
    requires label { is_label (length builder.old.places)
        (option_map (λ l. l.number) called.end) ≡ true }
    requires small { are_small (map argument_view arguments.now) ≡ true }
    ensures { OnOk result (Emits (arguments_piece carriers.now (map argument_view arguments.now)
        (called_piece called.equation (option_map (λ l. l.number) called.end)))
        (block_end (option_map (λ l. l.number) called.end)) builder.old builder.new) }
{
    let Some((argument, arguments)) = arguments.split_first() else {
        return emit_called(builder, called);
    };
    emit_term(builder, &argument.term)?;
    let Some((carrier, carriers)) = carriers.split_first() else {
        return emit_arguments(builder, &[], arguments, called);
    };
    let Some(range) = tested_range(*carrier, argument.shape) else {
        emit_arguments(builder, carriers, arguments, called)?;
        if any_tested(carriers, arguments) {
            emit_plain(builder, Op::Pop)?;
        }
        return Ok(());
    };
    let outside = builder.label()?;
    let test = Jump::InRange {
        low: range.low,
        high: range.high,
    };
    builder.emit_jump(test, outside)?;
    emit_arguments(builder, carriers, arguments, called)?;
    builder.place(outside);
    builder.emit(Op::Pop)
}

/// The code of a call of the equation that has these parameters, or of a cut where an argument lies
/// outside of its parameter.
///
/// # Errors
/// Memory was refused.
pub(crate) fn emit_call(
    builder: &mut Builder,
    equation: usize,
    carriers: &[Carrier],
    arguments: &[Argument],
) -> Result<(), AllocError>
    requires few { equation < 256 }
    requires small { are_small (map argument_view arguments.now) ≡ true }
    ensures { OnOk result (Emits (call_piece equation carriers.now
        (map argument_view arguments.now)) nowhere builder.old builder.new) }
{
    let equation = equation as u8;
    if any_tested(carriers, arguments) {
        let end = builder.label()?;
        let called = Called {
            equation,
            end: Some(end),
        };
        emit_arguments(builder, carriers, arguments, called)?;
        emit_plain(builder, Op::Emit(Leaf::Cut))?;
        builder.place(end);
        Ok(())
    } else {
        let end = None;
        emit_arguments(builder, carriers, arguments, Called { equation, end })
    }
}
