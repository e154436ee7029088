//! What is around a formula: the names of fixpoints, and how many levels may still open.

ghost use Rattle.std.specs.Prelude.{◌≡◌};
ghost use Rattle.pb_model_text.specs.Grammar as grammar;
ghost use Rattle.pb_model_text.specs.Reading.{names_of};

use crate::word::{Leading, leading_word};

/// The names of the fixpoints around a formula, the innermost last, and how many levels may still
/// open in it.
#[derive(Clone, Copy)]
pub struct Scope<'s, 'a> {
    pub names: &'s [&'a str],
    pub depth: u32,
}

/// Whether a name is that of a fixpoint around.
pub fn is_bound(names: &[&str], text: &[u8]) -> bool
    ensures { result ≡ grammar.is_bound (names_of names.now) text.now }
{
    for name in names {
        if name.as_bytes() == text {
            return true;
        }
    }
    false
}

/// The word of these bytes with which an operand begins, if none of the fixpoints around forbids
/// it.
pub fn leading_within(names: &[&str], text: &[u8]) -> Option<Leading>
    ensures { result ≡ grammar.leading_within (names_of names.now) text.now }
{
    match leading_word(text) {
        Some(Leading::Fair) if is_bound(names, b"fair".as_slice()) => None,
        word => word,
    }
}
