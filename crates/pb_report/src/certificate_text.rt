//! The text of a certificate, in the form that PGSolver and other tools of parity games read and
//! write, so that the winners can be checked without this program.
ghost use Rattle.std.specs.Prelude.{◌≡◌, Some};
ghost use Rattle.pb_game.specs.Solutions.{HasLengths};
ghost use Rattle.pb_report.specs.Delivery.{Delivers, was_not_written};
ghost use Rattle.pb_report.specs.Sending.{Sends};
ghost use Rattle.pb_report.specs.CertificateText.{strategy_at, strategy_part, winner_line};
ghost use Rattle.pb_report.specs.CertificateText.{certificate_head, certificate_text};

use crate::buffer::{TextBuffer, TextWriter, WriteError};
use crate::vertex_line::write_field;
use pb_game::{Game, Solution};
use pb_sorts::{E02, Sink};
use pb_strategy::Position;
use std::alloc::Global;

/// The winner's choice at a vertex where the winner moves.
fn strategy_at(position: &Position) -> Option<u32>
    ensures { result
        ≡ strategy_at position.now.game.now position.now.solution.now position.now.number }
{
    let number = position.number;
    if position.game.owner(number) == position.solution.winner(number) {
        Some(position.solution.choice(number))
    } else {
        None
    }
}

/// What stands behind a vertex's winner.
fn write_strategy<S: Sink>(writer: &mut TextWriter<'_, S>, strategy: Option<u32>) -> Result<(), E02>
    ensures { Sends (strategy_part strategy) result S.Sink writer.old writer.new }
{
    match strategy {
        None => writer.write(b";\n"),
        Some(choice) => write_choice(writer, choice),
    }
}

/// The successor that a strategy names, and the line's end.
fn write_choice<S: Sink>(writer: &mut TextWriter<'_, S>, choice: u32) -> Result<(), E02>
    ensures { Sends (strategy_part (Some choice)) result S.Sink writer.old writer.new }
{
    writer.write(b" ")?;
    writer.write_number(choice)?;
    writer.write(b";\n")
}

fn write_line<S: Sink>(writer: &mut TextWriter<'_, S>, position: &Position) -> Result<(), E02>
    ensures { Sends (winner_line position.now.game.now position.now.solution.now
        position.now.number) result S.Sink writer.old writer.new }
{
    write_field(writer, position.number)?;
    writer.write_number(position.solution.winner(position.number).parity())?;
    write_strategy(writer, strategy_at(position))
}

fn write_head<S: Sink>(writer: &mut TextWriter<'_, S>, greatest: u32) -> Result<(), E02>
    ensures { Sends (certificate_head greatest) result S.Sink writer.old writer.new }
{
    writer.write(b"paritysol ")?;
    writer.write_number(greatest)?;
    writer.write(b";\n")
}

/// All lines.
fn write_certificate<S: Sink>(
    writer: &mut TextWriter<'_, S>,
    game: &Game,
    solution: &Solution,
) -> Result<(), E02>
    requires lengths { HasLengths game.now solution.now }
    ensures { Sends (certificate_text game.now solution.now) result S.Sink writer.old writer.new }
{
    write_head(writer, game.len().saturating_sub(1))?;
    for number in 0..game.len() {
        let position = Position {
            game,
            solution,
            number,
        };
        write_line(writer, &position)?;
    }
    Ok(())
}

/// Appends a solution of a game in the form that PGSolver reads and writes: a line for each vertex,
/// with its winner, and with the winner's choice where the winner moves.
///
/// # Errors
/// `Memory` before the first byte. After `E02` a part that begins the text, and not the whole of
/// it, went out.
pub fn certificate_text<S: Sink>(
    alloc: Global,
    game: &Game,
    solution: &Solution,
    sink: &mut S,
) -> Result<(), WriteError>
    requires lengths { HasLengths game.now solution.now }
    ensures { Delivers was_not_written (λ text. text ≡ certificate_text game.now solution.now)
        result S.Sink sink.old sink.new }
{
    let mut buffer = TextBuffer::new(alloc)?;
    let mut writer = TextWriter {
        buffer: &mut buffer,
        sink,
    };
    write_certificate(&mut writer, game, solution)?;
    writer.finish()?;
    Ok(())
}
