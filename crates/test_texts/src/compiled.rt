//! What the compiler makes of a text, for the tests beside this one.

use pb_assembler::compile;
use pb_bytecode::Module;
use pb_normal::normalise;
use std::alloc::{AllocError, Global};

/// Longer than any text of these tests.
const MAX_LENGTH: usize = 1 << 20;

/// The module of a text, or the line that says why it has none.
pub fn compiled(alloc: Global, text: &str) -> Result<Result<Module, String>, AllocError> {
    if text.len() > MAX_LENGTH {
        return Ok(Err(String::from_str(alloc, "too long")?));
    }
    let spec = match pb_text::parse(alloc, text.as_bytes()) {
        Ok(spec) => spec,
        Err(error) => return Ok(Err(format!(in alloc; "{error:?}")?)),
    };
    let typed = match pb_typing::check(alloc, spec) {
        Ok(typed) => typed,
        Err((_, error)) => return Ok(Err(format!(in alloc; "{error:?}")?)),
    };
    let normal = normalise(alloc, &typed)?;
    match compile(alloc, &normal) {
        Ok(module) => Ok(Ok(module)),
        Err(error) => Ok(Err(format!(in alloc; "{error}")?)),
    }
}
