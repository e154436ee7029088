//! The names of instances.
ghost use Rattle.std.specs.Prelude.{◌≡◌, ◌<◌, length, map};
ghost use Rattle.pb_sorts.specs.Layout.{count_of};
ghost use Rattle.pb_bytecode.specs.Meaning.{parameters};
ghost use Rattle.pb_bytecode.specs.Views.{sort_contents};
ghost use Rattle.pb_report.specs.Sending.{Sends};
ghost use Rattle.pb_report.specs.InstanceName.{bool_name, enumerator_name, value_name};
ghost use Rattle.pb_report.specs.InstanceName.{next_value, arguments, instance_name};

use crate::buffer::TextWriter;
use pb_bytecode::Sort;
use pb_sorts::{Carrier, E02, Sink};
use pb_verifier::Verified;

/// The name of a truth value, of which 0 is false.
fn bool_name(value: i64) -> &'static [u8]
    ensures { result.now ≡ bool_name value }
{
    if value == 0 { b"false" } else { b"true" }
}

/// The name of an enumerator, by its place in its sort; of what is none, no byte.
fn enumerator_name(sorts: &[Sort], sort: u8, value: i64) -> &[u8]
    ensures { result.now ≡ enumerator_name (map sort_contents sorts.now) sort value }
{
    if value < 0 {
        return b"";
    }
    match sorts.get(sort as usize) {
        None => b"",
        Some(sort) => match sort.enumerators.get(value as usize) {
            None => b"",
            Some(name) => name.text.as_bytes(),
        },
    }
}

/// The name of a value.
fn write_value<S: Sink>(
    writer: &mut TextWriter<'_, S>,
    sorts: &[Sort],
    carrier: &Carrier,
    value: &i64,
) -> Result<(), E02>
    ensures { Sends (value_name (map sort_contents sorts.now) carrier.now value.now)
        result S.Sink writer.old writer.new }
{
    match carrier {
        Carrier::Bool => writer.write(bool_name(*value)),
        Carrier::Enum(enumeration) => {
            writer.write(enumerator_name(sorts, enumeration.sort, *value))
        }
        Carrier::Range(_) => writer.write_signed(*value),
    }
}

/// The name of a value, after a comma.
fn write_next_value<S: Sink>(
    writer: &mut TextWriter<'_, S>,
    sorts: &[Sort],
    carrier: &Carrier,
    value: &i64,
) -> Result<(), E02>
    ensures { Sends (next_value (map sort_contents sorts.now) carrier.now value.now)
        result S.Sink writer.old writer.new }
{
    writer.write(b",")?;
    write_value(writer, sorts, carrier, value)
}

/// The names of values in parentheses with commas between them, and no byte where there are none.
fn write_arguments<S: Sink>(
    writer: &mut TextWriter<'_, S>,
    sorts: &[Sort],
    carriers: &[Carrier],
    values: &[i64],
) -> Result<(), E02>
    requires { length values.now ≡ length carriers.now }
    ensures { Sends (arguments (map sort_contents sorts.now) carriers.now values.now)
        result S.Sink writer.old writer.new }
{
    if carriers.is_empty() {
        return writer.write(b"");
    }
    writer.write(b"(")?;
    write_value(writer, sorts, &carriers[0], &values[0])?;
    for k in 1..carriers.len() {
        write_next_value(writer, sorts, &carriers[k], &values[k])?;
    }
    writer.write(b")")
}

/// An instance of a module, by its number.
#[derive(Clone, Copy)]
pub(crate) struct NumberedInstance<'a> {
    pub verified: &'a Verified,
    pub number: u64,
    pub ghost inside: { number < count_of (parameters verified.now) },
}

/// The name of the instance with this number.
pub fn write_instance_name<S: Sink>(
    writer: &mut TextWriter<'_, S>,
    verified: &Verified,
    number: u64,
) -> Result<(), E02>
    requires { number < count_of (parameters verified.now) }
    ensures { Sends (instance_name verified.now number) result S.Sink writer.old writer.new }
{
    let module = verified.module();
    let instance = verified.layout().instance(number);
    let equation = &module.equations[instance.equation as usize];
    writer.write(equation.name.text.as_bytes())?;
    write_arguments(
        writer,
        &module.sorts,
        &equation.parameters,
        &instance.values,
    )
}
