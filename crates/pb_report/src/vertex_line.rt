//! Lines of a game's text, in the form that PGSolver reads.
ghost use Rattle.std.specs.Prelude.{◌<◌, length, Some};
ghost use Rattle.pb_game.specs.Games.{vertex_count, successors_of};
ghost use Rattle.pb_report.specs.Sending.{Sends};
ghost use Rattle.pb_report.specs.GameText.{field, head, item, more_numbers, numbers_text};
ghost use Rattle.pb_report.specs.GameText.{name_part, vertex_at, vertex_text};

use crate::buffer::TextWriter;
use pb_game::Game;
use pb_sorts::{E02, Sink};

/// A number, and a space behind it.
pub(crate) fn write_field<S: Sink>(writer: &mut TextWriter<'_, S>, number: u32) -> Result<(), E02>
    ensures { Sends (field number) result S.Sink writer.old writer.new }
{
    writer.write_number(number)?;
    writer.write(b" ")
}

fn write_head<S: Sink>(
    writer: &mut TextWriter<'_, S>,
    vertex: u32,
    priority: u32,
    owner: u32,
) -> Result<(), E02>
    ensures { Sends (head vertex priority owner) result S.Sink writer.old writer.new }
{
    write_field(writer, vertex)?;
    write_field(writer, priority)?;
    write_field(writer, owner)
}

fn write_item<S: Sink>(writer: &mut TextWriter<'_, S>, number: u32) -> Result<(), E02>
    ensures { Sends (item number) result S.Sink writer.old writer.new }
{
    writer.write(b",")?;
    writer.write_number(number)
}

fn write_more<S: Sink>(writer: &mut TextWriter<'_, S>, numbers: &[u32]) -> Result<(), E02>
    ensures { Sends (more_numbers numbers.now) result S.Sink writer.old writer.new }
{
    for k in 0..numbers.len() {
        write_item(writer, numbers[k])?;
    }
    Ok(())
}

fn write_numbers<S: Sink>(writer: &mut TextWriter<'_, S>, numbers: &[u32]) -> Result<(), E02>
    requires { 0 < length numbers.now }
    ensures { Sends (numbers_text numbers.now) result S.Sink writer.old writer.new }
{
    writer.write_number(numbers[0])?;
    write_more(writer, &numbers[1..])
}

/// A name in its quotes, and the line's end.
pub(crate) fn write_name<S: Sink>(writer: &mut TextWriter<'_, S>, name: &[u8]) -> Result<(), E02>
    ensures { Sends (name_part (Some name.now)) result S.Sink writer.old writer.new }
{
    writer.write(b" \"")?;
    writer.write(name)?;
    writer.write(b"\";\n")
}

/// A vertex's number, priority, owner and successors.
pub(crate) fn write_vertex<S: Sink>(
    writer: &mut TextWriter<'_, S>,
    game: &Game,
    vertex: u32,
) -> Result<(), E02>
    requires vertex { vertex < vertex_count game.now }
    requires edges { 0 < length (successors_of game.now vertex) }
    ensures { Sends (vertex_text vertex (vertex_at game.now vertex))
        result S.Sink writer.old writer.new }
{
    write_head(
        writer,
        vertex,
        game.priority(vertex),
        game.owner(vertex).parity(),
    )?;
    write_numbers(writer, game.successors(vertex))
}
