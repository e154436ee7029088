//! Names of enumerators and of predicate variables.
ghost use Rattle.std.specs.Prelude.{◌≡◌, true, string_bytes};
ghost use Rattle.std.specs.List.{list_all};
ghost use Rattle.pb_bytecode.specs.Names.{begins_with_letter, is_module_name, is_name_byte};

use pb_base::{MAX_NAME_BYTES, is_letter, is_name_byte};

/// A name: a letter or `_`, then letters, digits, `_` and `'`, at most `MAX_NAME_BYTES` bytes in
/// all. Reserved words of texts are names, too.
#[derive(Drop)]
pub struct Name {
    pub text: String,
    pub ghost spelled: { is_module_name (string_bytes text) ≡ true },
}

fn begins_with_letter(text: &[u8]) -> bool
    ensures { result ≡ begins_with_letter text.now }
{
    match text {
        [] => false,
        [first, ..] => is_letter(*first),
    }
}

fn are_name_bytes(text: &[u8]) -> bool
    ensures { result ≡ list_all is_name_byte text.now }
{
    text.iter().all(|byte| is_name_byte(*byte))
}

/// Whether a module may have the name (B05).
pub fn is_name(text: &[u8]) -> bool
    ensures { result ≡ is_module_name text.now }
{
    begins_with_letter(text) && text.len() <= MAX_NAME_BYTES && are_name_bytes(text)
}
