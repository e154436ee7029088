//! How many values sorts have, and tuples of values variables. A count that passes a machine word
//! is written as the greatest one, with a plus.

ghost use Rattle.std.specs.Prelude.{◌≡◌, ◌*◌, ◌≤◌, ◌++◌, OnOk, string_bytes};
ghost use Rattle.pb_text_tree.specs.Form.{named, variable_forms, variables_form};
ghost use Rattle.pb_typing_declarations.specs.View.{spec_of};
ghost use Rattle.pb_model_sizes.specs.Counts.{capped, told, tuples_of, value_count};

use crate::number::MAX_FACTOR;
use pb_text_tree::{Name, Variables};
use pb_typing_declarations::Declarations;
use std::alloc::AllocError;

/// The greatest count that is told; from it on a plus says that there may be more.
pub const MAX_COUNT: u64 = 18_446_744_073_709_551_615;

/// How many values a sort has; none where no sort of the name has values.
pub(crate) fn value_count(declarations: &Declarations<'_>, sort: &Name) -> u64
    ensures count { result ≡ value_count (spec_of declarations.now) (named sort.now).text }
    ensures few { result ≤ MAX_FACTOR }
{
    match declarations.carrier(&sort.text) {
        Some(carrier) => carrier.size(),
        None => 0,
    }
}

/// A count, times that of a group of variables.
fn times_group(count: u64, declarations: &Declarations<'_>, group: &Variables) -> u64
    ensures { result
        ≡ capped (count * tuples_of (spec_of declarations.now) (variables_form group.now)) }
{
    let size = value_count(declarations, &group.sort);
    let mut product = count;
    for name in &group.names {
        product = product.saturating_mul(size);
    }
    product
}

/// How many tuples of values the variables of a list have.
pub(crate) fn tuples_of(declarations: &Declarations<'_>, groups: &[Variables]) -> u64
    ensures { result
        ≡ capped (tuples_of (spec_of declarations.now) (variable_forms groups.now)) }
{
    let mut count: u64 = 1;
    for group in groups {
        count = times_group(count, declarations, group);
    }
    count
}

/// Writes a count.
pub(crate) fn push_count(lines: &mut String, count: u64) -> Result<(), AllocError>
    ensures { OnOk result (string_bytes lines.new ≡ string_bytes lines.old ++ told count) }
{
    write!(lines, "{count}")?;
    if count == MAX_COUNT {
        return lines.push_str("+");
    }
    Ok(())
}
