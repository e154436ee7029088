//! The code of tests.

ghost use Rattle.std.specs.Prelude.{◌≡◌, true, OnOk};
ghost use Rattle.pb_normal.specs.Small.{is_small};
ghost use Rattle.pb_assembler_scheme.specs.Scheme.{data_piece};
ghost use Rattle.pb_assembler.specs.Emitted.{Emits, nowhere};
ghost use Rattle.pb_assembler_measures.specs.Tests.{tested_term};

use crate::emission::emit_plain;
use crate::term::emit_term;
use pb_assembler_builder::Builder;
use pb_assembler_measures::Test;
use pb_bytecode_program::Op;
use pb_typing::Polarity;
use std::alloc::AllocError;

/// The code that pushes a test's value.
///
/// # Errors
/// Memory was refused.
pub(crate) fn emit_tested(builder: &mut Builder, test: Test<'_>) -> Result<(), AllocError>
    requires { is_small (tested_term test) ≡ true }
    ensures { OnOk result
        (Emits (data_piece (tested_term test.entry)) nowhere builder.old builder.new) }
{
    emit_term(builder, test.term)?;
    match test.polarity {
        Polarity::Positive => Ok(()),
        Polarity::Negative => emit_plain(builder, Op::Not),
    }
}
