//! Emitting pieces of one instruction.

ghost use Rattle.std.specs.Prelude.{OnOk};
ghost use Rattle.pb_assembler_scheme.specs.Pieces.{Plain};
ghost use Rattle.pb_assembler.specs.Emitted.{Emits, nowhere};

use pb_assembler_builder::Builder;
use pb_bytecode_program::Op;
use std::alloc::AllocError;

/// An instruction as it is, as a piece of code.
///
/// # Errors
/// Memory was refused.
pub(crate) fn emit_plain(builder: &mut Builder, op: Op) -> Result<(), AllocError>
    ensures { OnOk result (Emits (Plain op) nowhere builder.old builder.new) }
{
    builder.emit(op)
}
