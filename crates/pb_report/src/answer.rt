//! The answer to a system, and its report.
ghost use Rattle.std.specs.Prelude.{◌≡◌};
ghost use Rattle.pb_report.specs.Delivery.{Delivers, was_not_written};
ghost use Rattle.pb_report.specs.Sending.{Sends};
ghost use Rattle.pb_report.specs.Report.{truth_line, counted_line, counts_text, report_text};

use crate::buffer::{TextBuffer, TextWriter, WriteError};
use pb_sorts::{E02, Sink};
use std::alloc::Global;

/// What was found: whether the initial instance is true, how many instances were reached, how many
/// of these meet a cut, and how many vertices the game has.
#[derive(Clone, Copy, PartialEq, Eq)]
pub struct Answer {
    pub truth: bool,
    pub instances: u32,
    pub cut: u32,
    pub vertices: u32,
}

/// The line that says whether the initial instance is true.
pub(crate) fn write_answer<S: Sink>(writer: &mut TextWriter<'_, S>, truth: bool) -> Result<(), E02>
    ensures { Sends (truth_line truth) result S.Sink writer.old writer.new }
{
    if truth {
        writer.write(b"answer true\n")
    } else {
        writer.write(b"answer false\n")
    }
}

fn write_count<S: Sink>(writer: &mut TextWriter<'_, S>, label: &[u8], count: u32) -> Result<(), E02>
    ensures { Sends (counted_line label.now count) result S.Sink writer.old writer.new }
{
    writer.write(label)?;
    writer.write_number(count)?;
    writer.write(b"\n")
}

fn write_counts<S: Sink>(writer: &mut TextWriter<'_, S>, answer: &Answer) -> Result<(), E02>
    ensures { Sends (counts_text answer.now) result S.Sink writer.old writer.new }
{
    write_count(writer, b"instances ", answer.instances)?;
    write_count(writer, b"cut ", answer.cut)?;
    write_count(writer, b"vertices ", answer.vertices)
}

fn write_report<S: Sink>(writer: &mut TextWriter<'_, S>, answer: &Answer) -> Result<(), E02>
    ensures { Sends (report_text answer.now) result S.Sink writer.old writer.new }
{
    write_answer(writer, answer.truth)?;
    write_counts(writer, answer)
}

/// Appends the report of an answer.
///
/// # Errors
/// `Memory` before the first byte. After `E02` a part that begins the report, and not the whole of
/// it, went out.
pub fn report<S: Sink>(alloc: Global, answer: &Answer, sink: &mut S) -> Result<(), WriteError>
    ensures { Delivers was_not_written (λ text. text ≡ report_text answer.now) result
        S.Sink sink.old sink.new }
{
    let mut buffer = TextBuffer::new(alloc)?;
    let mut writer = TextWriter {
        buffer: &mut buffer,
        sink,
    };
    write_report(&mut writer, answer)?;
    writer.finish()?;
    Ok(())
}
