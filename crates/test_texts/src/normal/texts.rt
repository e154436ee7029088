//! The normal form of a text, for the tests beside this one.

use pb_normal::normalise;
use std::alloc::Global;
use std::test::Fail;

/// Longer than any text of these tests.
const MAX_LENGTH: usize = 1 << 20;

/// What the first equation of a text is in normal form, as it is shown; of a text that isn't
/// accepted, nothing.
pub fn shown(alloc: Global, text: &[u8]) -> Result<String, Fail> {
    let mut shown = String::new(alloc);
    if text.len() > MAX_LENGTH {
        return Ok(shown);
    }
    let spec = pb_text::parse(alloc, text)?;
    if let Ok(typed) = pb_typing::check(alloc, spec) {
        let normal = normalise(alloc, &typed)?;
        if let Some(equation) = normal.equations.first() {
            shown = format!(in alloc; "{:?}", equation)?;
        }
    }
    Ok(shown)
}

/// The instance that a text asks for, as it is shown; of a text that isn't accepted, nothing.
pub fn initial_shown(alloc: Global, text: &[u8]) -> Result<String, Fail> {
    let mut shown = String::new(alloc);
    if text.len() > MAX_LENGTH {
        return Ok(shown);
    }
    let spec = pb_text::parse(alloc, text)?;
    if let Ok(typed) = pb_typing::check(alloc, spec) {
        shown = format!(in alloc; "{:?}", typed.initial)?;
    }
    Ok(shown)
}

/// How many operands stand behind the first of the chain that the first equation is; none where it
/// is no chain.
pub fn operands(alloc: Global, text: &[u8]) -> Result<Option<usize>, Fail> {
    if text.len() > MAX_LENGTH {
        return Ok(None);
    }
    let spec = pb_text::parse(alloc, text)?;
    match pb_typing::check(alloc, spec) {
        Err(_) => Ok(None),
        Ok(typed) => {
            let normal = normalise(alloc, &typed)?;
            match normal.equations.first() {
                Some(
                    pb_normal::Equation {
                        right: pb_normal::Formula::Join { rest, .. },
                        ..
                    },
                ) => Ok(Some(rest.len())),
                _ => Ok(None),
            }
        }
    }
}
