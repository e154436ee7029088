//! From texts to their modules.
ghost use Rattle.pb_text_tree.specs.Form.{spec_form};
ghost use Rattle.pb_command_modules.specs.Delivery.{DeliversOrRefuses};
ghost use Rattle.pb_command_texts.specs.Compilation.{CompilesText, ReadsText, VerifiesForm, VerifiesText};
ghost use Rattle.pb_command_texts.specs.Writes.{WritesModule, WritesOfModule};
ghost use Rattle.pb_command_texts.specs.Refusals.{IsUncompiled};

use crate::text_input::TextInput;
use pb_assembler::compile;
use pb_base::OrMemory;
use pb_bytecode::Module;
use pb_bytecode::encode::encode;
use pb_command_faults::{SolveError, SolveFault};
use pb_command_modules::deliver;
use pb_normal::normalise;
use pb_sorts::Sink;
use pb_typing::Typed;
use pb_verifier::{Verified, verify, verify_laid_out};
use std::alloc::Global;

// What a text says, which is well typed by which instances count.
pub(crate) fn typed(alloc: Global, text: TextInput<'_>) -> Result<Typed, OrMemory<SolveFault>>
    ensures { ReadsText text.entry.counting text.entry.input.bytes.now result }
{
    let spec = match pb_text::parse(alloc, text.input.bytes) {
        Ok(spec) => spec,
        Err(error) => return Err(error.raise()),
    };
    match pb_typing::check_counting(alloc, spec, text.counting) {
        Ok(typed) => Ok(typed),
        Err((_spec, error)) => Err(error.raise()),
    }
}

// The module of a text.
fn compiled(alloc: Global, typed: &Typed) -> Result<Module, OrMemory<SolveFault>>
    ensures { CompilesText typed.now result }
{
    let normal = normalise(alloc, typed)?;
    match compile(alloc, &normal) {
        Ok(module) => Ok(module),
        Err(error) => Err(error.raise()),
    }
}

// The module of a text that is told from, verified: a compiled module is always accepted.
pub fn verified(alloc: Global, typed: &Typed) -> Result<Verified, OrMemory<SolveFault>>
    ensures { VerifiesForm (spec_form typed.now.spec) result }
{
    let module = compiled(alloc, typed)?;
    match verify(alloc, module) {
        Ok(verified) => Ok(verified),
        Err((_module, error)) => Err(error.only_memory().into()),
    }
}

// The module of a text that nothing is told from, verified: the text's layout is the module's.
pub fn verified_laid_out(alloc: Global, typed: Typed) -> Result<Verified, OrMemory<SolveFault>>
    ensures { VerifiesForm (spec_form typed.spec) result }
{
    let module = compiled(alloc, &typed)?;
    match verify_laid_out(alloc, module, typed.layout) {
        Ok(verified) => Ok(verified),
        Err((_module, error)) => Err(error.only_memory().into()),
    }
}

// The module of a text, verified.
pub(crate) fn verified_text(
    alloc: Global,
    text: TextInput<'_>,
) -> Result<Verified, OrMemory<SolveFault>>
    ensures { VerifiesText text.entry.counting text.entry.input.bytes.now result }
{
    let typed = typed(alloc, text)?;
    verified_laid_out(alloc, typed)
}

/// Compiles a text, and writes the bytes of its module.
///
/// # Errors
/// `Text`, `Typing` and `Limit` say which rule the text breaks, or which limit its code exceeds,
/// and where; `Memory` comes where a request for memory was refused, and `Write` where the bytes
/// could not be written whole.
pub fn compile_text<S: Sink>(
    alloc: Global,
    text: TextInput<'_>,
    writer: &mut S,
) -> Result<(), SolveError>
    ensures { DeliversOrRefuses
        (WritesOfModule text.entry.counting WritesModule text.entry.input.bytes.now)
        (IsUncompiled text.entry.counting text.entry.input.bytes.now)
        result S.Sink writer.old writer.new }
{
    let typed = typed(alloc, text)?;
    let module = compiled(alloc, &typed)?;
    let spelled = encode(alloc, &module)?;
    deliver(spelled.as_slice(), writer)
}
