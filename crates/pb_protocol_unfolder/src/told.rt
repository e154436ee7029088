//! The names by which users are told of elements and of steps with their values.

ghost use Rattle.std.specs.Prelude.{◌≡◌, ◌++◌, map, IfOk, OnOk, string_bytes};
ghost use Rattle.pb_protocol_unfolder_terms.specs.Values.{written_term};
ghost use Rattle.pb_protocol_unfolder.specs.Told.{told_value, with_others, with_values};
ghost use Rattle.pb_protocol_unfolder.specs.Told as told;

use pb_protocol_unfolder_terms::Written;
use std::alloc::{AllocError, Global};

/// Adds how a written value is told.
fn push_value(text: &mut String, value: Written<'_>) -> Result<(), AllocError>
    ensures { OnOk result
        (string_bytes text.new ≡ string_bytes text.old ++ told_value (written_term value.entry)) }
{
    match value {
        Written::Truth(true) => text.push_str("true"),
        Written::Truth(false) => text.push_str("false"),
        Written::Number(number) => write!(text, "{number}"),
        Written::Negative(number) => write!(text, "-{number}"),
        Written::Enumerator(enumerator) => text.push_str(enumerator.text.as_str()),
    }
}

/// Adds each value behind a comma.
fn push_others(text: &mut String, values: &[Written<'_>]) -> Result<(), AllocError>
    ensures { OnOk result (string_bytes text.new
        ≡ with_others (string_bytes text.old) (map written_term values.now)) }
{
    for value in values {
        text.push_str(",")?;
        push_value(text, *value)?;
    }
    Ok(())
}

/// Adds values in brackets.
fn push_values(
    text: &mut String,
    first: Written<'_>,
    others: &[Written<'_>],
) -> Result<(), AllocError>
    ensures { OnOk result (string_bytes text.new ≡ with_values (string_bytes text.old)
        (written_term first.entry) (map written_term others.now)) }
{
    text.push_str("(")?;
    push_value(text, first)?;
    push_others(text, others)?;
    text.push_str(")")
}

/// A name, and written values in brackets behind it, where there are any: `x(k,l)`.
pub(crate) fn told_name(
    alloc: Global,
    name: &str,
    values: &[Written<'_>],
) -> Result<String, AllocError>
    ensures { IfOk result
        (λ text. string_bytes text ≡ told.told_name name.now (map written_term values.now)) }
{
    let mut text = name.to_owned(alloc)?;
    let Some((first, others)) = values.split_first() else {
        return Ok(text);
    };
    push_values(&mut text, *first, others)?;
    Ok(text)
}
