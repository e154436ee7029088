//! The text of a game of reached instances, in the form that PGSolver reads.
ghost use Rattle.std.specs.Prelude.{◌≡◌, ◌<◌, ◌-◌, ◌↔◌, IfSome, IsSome, Some};
ghost use Rattle.std.specs.Prelude.{None, length, slice_index};
ghost use Rattle.pb_sorts.specs.Layout.{count_of};
ghost use Rattle.pb_bytecode.specs.Meaning.{parameters};
ghost use Rattle.pb_game.specs.Games.{vertex_count, successors_of};
ghost use Rattle.pb_game_of_trees.specs.Explored.{ModuleHasTrees, AreModuleRows, IsModuleGame};
ghost use Rattle.pb_report.specs.ModuleTexts.{module_game_text, IsTextOfTrees};
ghost use Rattle.pb_report.specs.Delivery.{Delivers, was_not_written};
ghost use Rattle.pb_report.specs.Sending.{Sends};
ghost use Rattle.pb_report.specs.InstanceName.{instance_name};
ghost use Rattle.pb_report.specs.GameText.{name_part, vertex_at, vertex_line};
ghost use Rattle.pb_report.specs.VertexNames.{name_by, number_in, IsAtRow};
ghost use Rattle.pb_report.specs.VertexNames.{lines_text, first_line, memory_text};
ghost use Rattle.pb_report.specs.PlacedRows.{ArePlacedRows};

use crate::buffer::{TextBuffer, TextWriter, WriteError};
use crate::instance_name::{NumberedInstance, write_instance_name};
use crate::vertex_line::{write_name, write_vertex};
use pb_fixpoint_trees::{IndexedRows, ReadRows};
use pb_game::Game;
use pb_game_of_trees::TreeGame;
use pb_sorts::{E02, Sink};
use pb_verifier::Verified;
use std::alloc::Global;

/// The rows of a module's game, with the vertex of each.
#[derive(Clone, Copy)]
struct PlacedRows<'a> {
    verified: &'a Verified,
    game: &'a Game,
    rows: &'a IndexedRows,
    vertices: &'a [u32],
    ghost placed: { ArePlacedRows verified.now game.now vertices.now rows.now },
}

/// A vertex, with the number of the instance that has its name, if there is one.
#[derive(Clone, Copy)]
struct NamedVertex {
    vertex: u32,
    instance: Option<u64>,
}

/// An instance's name in its quotes, and the line's end.
fn write_quoted<S: Sink>(
    writer: &mut TextWriter<'_, S>,
    instance: &NumberedInstance<'_>,
) -> Result<(), E02>
    ensures { Sends (name_part (Some (instance_name instance.now.verified.now instance.now.number)))
        result S.Sink writer.old writer.new }
{
    writer.write(b" \"")?;
    write_instance_name(writer, instance.verified, instance.number)?;
    writer.write(b"\";\n")
}

/// What stands behind a vertex's successors. `number` is the instance's, if the vertex is one's.
fn write_line_end<S: Sink>(
    writer: &mut TextWriter<'_, S>,
    verified: &Verified,
    vertex: u32,
    number: Option<u64>,
) -> Result<(), E02>
    requires { IfSome number (λ n. n < count_of (parameters verified.now)) }
    ensures { Sends (name_part (name_by verified.now vertex number))
        result S.Sink writer.old writer.new }
{
    if vertex == 0 {
        return write_name(writer, b"false");
    }
    if vertex == 1 {
        return write_name(writer, b"true");
    }
    match number {
        None => writer.write(b";\n"),
        Some(number) => write_quoted(writer, &NumberedInstance { verified, number }),
    }
}

/// The line of a vertex.
fn write_line<S: Sink>(
    writer: &mut TextWriter<'_, S>,
    verified: &Verified,
    game: &Game,
    named: NamedVertex,
) -> Result<(), E02>
    requires vertex { named.vertex < vertex_count game.now }
    requires edges { 0 < length (successors_of game.now named.vertex) }
    requires number { IfSome named.instance (λ n. n < count_of (parameters verified.now)) }
    ensures { Sends (vertex_line named.vertex (vertex_at game.now named.vertex) (name_by
        verified.now named.vertex named.instance))
        result S.Sink writer.old writer.new }
{
    write_vertex(writer, game, named.vertex)?;
    write_line_end(writer, verified, named.vertex, named.instance)
}

impl PlacedRows<'_> {
    /// The number of the row whose vertex this is, if it is one's; `k` is the first row whose
    /// vertex is not before it.
    fn number(&self, k: usize, vertex: u32) -> Option<u64>
        requires { IsAtRow self.now.vertices.now k vertex }
        ensures number { result ≡ number_in self.now.vertices.now self.now.rows.now vertex }
        ensures some { IsSome result ↔ ((k < length self.now.vertices.now)
            × (slice_index self.now.vertices.now k ≡ vertex)) }
    {
        if k < self.vertices.len() && self.vertices[k] == vertex {
            Some(self.rows.number(k))
        } else {
            None
        }
    }
}

/// The lines of all vertices.
fn write_lines<S: Sink>(writer: &mut TextWriter<'_, S>, placed: &PlacedRows<'_>) -> Result<(), E02>
    ensures { Sends (lines_text placed.now.verified.now placed.now.game.now
        placed.now.vertices.now placed.now.rows.now) result S.Sink writer.old writer.new }
{
    let mut k = 0;
    for vertex in 0..placed.game.len() {
        let instance = placed.number(k, vertex);
        let named = NamedVertex { vertex, instance };
        write_line(writer, placed.verified, placed.game, named)?;
        if instance.is_some() {
            k += 1;
        }
    }
    Ok(())
}

fn write_first_line<S: Sink>(writer: &mut TextWriter<'_, S>, greatest: u32) -> Result<(), E02>
    ensures { Sends (first_line greatest) result S.Sink writer.old writer.new }
{
    writer.write(b"parity ")?;
    writer.write_number(greatest)?;
    writer.write(b";\n")
}

/// All lines.
fn write_game<S: Sink>(writer: &mut TextWriter<'_, S>, placed: &PlacedRows<'_>) -> Result<(), E02>
    ensures { Sends (memory_text placed.now.verified.now placed.now.game.now
        placed.now.vertices.now placed.now.rows.now) result S.Sink writer.old writer.new }
{
    write_first_line(writer, placed.game.len() - 1)?;
    write_lines(writer, placed)
}

fn write_text<S: Sink>(
    alloc: Global,
    placed: &PlacedRows<'_>,
    sink: &mut S,
) -> Result<(), WriteError>
    ensures { Delivers was_not_written (λ text. text ≡ memory_text placed.now.verified.now
        placed.now.game.now placed.now.vertices.now placed.now.rows.now)
        result S.Sink sink.old sink.new }
{
    let mut buffer = TextBuffer::new(alloc)?;
    let mut writer = TextWriter {
        buffer: &mut buffer,
        sink,
    };
    write_game(&mut writer, placed)?;
    writer.finish()?;
    Ok(())
}

/// Appends the game of a module's reached instances in the form that PGSolver reads, the sinks and
/// instances by name.
///
/// # Errors
/// `Memory` before the first byte. After `E02` a part that begins the text, and not the whole of
/// it, went out.
pub fn game_text<S: Sink>(
    alloc: Global,
    verified: &Verified,
    built: &TreeGame,
    rows: &IndexedRows,
    sink: &mut S,
) -> Result<(), WriteError>
    requires trees { ModuleHasTrees verified.now }
    requires rows { AreModuleRows verified.now rows.now }
    requires game { IsModuleGame verified.now rows.now built.now }
    ensures { Delivers was_not_written
        (IsTextOfTrees verified.now (λ trees. module_game_text verified.now trees rows.now)) result
        S.Sink sink.old sink.new }
{
    let placed = PlacedRows {
        verified,
        game: &built.game,
        rows,
        vertices: &built.vertices,
    };
    write_text(alloc, &placed, sink)
}
