//! Names of a text, as a module has them.

ghost use Rattle.std.specs.Prelude.{◌≡◌, true, IfOk};
ghost use Rattle.pb_bytecode.specs.Names.{is_module_name};
ghost use Rattle.pb_bytecode.specs.Views.{text_of};

use pb_bytecode::Name;
use std::alloc::{AllocError, Global};

/// A name that a module may have.
///
/// # Errors
/// Memory was refused.
pub(crate) fn copy_name(alloc: Global, text: &str) -> Result<Name, AllocError>
    requires { is_module_name text.now ≡ true }
    ensures { IfOk result (λ name. text_of name ≡ text.now) }
{
    let text = text.to_owned(alloc)?;
    Ok(Name { text })
}
