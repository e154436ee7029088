//! What begins a fixpoint, and the names in its body.

ghost use Rattle.std.specs.Prelude.{◌≡◌, IfOk};
ghost use Rattle.pb_model_text.specs.Grammar as grammar;
ghost use Rattle.pb_model_text.specs.Reading as reading;
ghost use Rattle.pb_model_text.specs.Reading.{names_of};

use pb_fixpoint::Sign;
use pb_text_lexer::kind::Kind;
use std::alloc::{AllocError, Global};

/// The sign of a token, if it begins a fixpoint.
pub fn sign(kind: Kind) -> Option<Sign>
    ensures { result ≡ reading.sign_of kind }
{
    match kind {
        Kind::Mu => Some(Sign::Mu),
        Kind::Nu => Some(Sign::Nu),
        _ => None,
    }
}

/// The names of a scope, and one more.
pub fn extended<'a>(
    alloc: Global,
    names: &[&'a str],
    name: &'a str,
) -> Result<Vec<&'a str>, AllocError>
    ensures { IfOk result (λ v. names_of v.items ≡ grammar.within (names_of names.now) name.now) }
{
    let mut extended = Vec::with_capacity(alloc, names.len() + 1)?;
    extended.extend_from_slice(names)?;
    extended.push(name)?;
    Ok(extended)
}
