//! Code of whole equations.

ghost use Rattle.std.specs.Prelude.{◌≡◌, ◌≤◌, true, length, IfOk};
ghost use Rattle.pb_base.specs.declared.limits.TheConstants.{MAX_INSTRUCTIONS};
ghost use Rattle.pb_normal.specs.View.{formula_view};
ghost use Rattle.pb_assembler_scheme.specs.Scheme.{equation_code};
ghost use Rattle.pb_normal.specs.Small.{is_small_formula};

use crate::emission::emit_plain;
use crate::formula::emit_formula;
use pb_assembler_builder::Builder;
use pb_assembler_measures::outermost;
use pb_bytecode_program::Op;
use pb_normal::Formula;
use pb_sorts::Layout;
use std::alloc::{AllocError, Global};

/// The code of an equation with this right side, where the equations have these parameters: its
/// outermost bracket is of the kind of its head. So many instructions are expected.
///
/// # Errors
/// Memory was refused.
pub(crate) fn equation_code(
    alloc: Global,
    layout: &Layout,
    right: &Formula<'_>,
    instructions: usize,
) -> Result<Vec<Op>, AllocError>
    requires small { is_small_formula (formula_view right.now) ≡ true }
    requires few { length (equation_code layout.now (formula_view right.now))
        ≤ MAX_INSTRUCTIONS }
    ensures { IfOk result (λ code. code.items
        ≡ equation_code layout.now (formula_view right.now)) }
{
    let kind = outermost(right);
    let mut builder = Builder::with_capacity(alloc, instructions)?;
    emit_plain(&mut builder, Op::Open(kind))?;
    emit_formula(&mut builder, layout, kind, right)?;
    emit_plain(&mut builder, Op::Close)?;
    emit_plain(&mut builder, Op::End)?;
    match builder.finish() {
        Ok(code) => Ok(code),
        Err((_, error)) => Err(error),
    }
}
