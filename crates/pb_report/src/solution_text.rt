//! The solution at the reached instances, as a text.
ghost use Rattle.std.specs.Prelude.{ℕ};
ghost use Rattle.pb_fixpoint_trees.specs.Tree.{Tree};
ghost use Rattle.pb_bytecode.specs.Meaning.{AreTrees};
ghost use Rattle.pb_game_of_trees.specs.Explored.{ModuleHasTrees, AreModuleRows, IsModuleGame};
ghost use Rattle.pb_report.specs.Delivery.{Delivers, was_not_written};
ghost use Rattle.pb_report.specs.Sending.{Sends};
ghost use Rattle.pb_report.specs.InstanceName.{instance_name};
ghost use Rattle.pb_report.specs.SolutionText.{truth_end, solution_line};
ghost use Rattle.pb_report.specs.ModuleTexts.{module_solution_text, IsTextOfTrees};

use crate::buffer::{TextBuffer, TextWriter, WriteError};
use crate::instance_name::{NumberedInstance, write_instance_name};
use pb_fixpoint_trees::{IndexedRows, ReadRows};
use pb_game_of_trees::Solved;
use pb_sorts::{E02, Sink};
use pb_verifier::Verified;
use std::alloc::Global;

fn write_truth<S: Sink>(writer: &mut TextWriter<'_, S>, truth: bool) -> Result<(), E02>
    ensures { Sends (truth_end truth) result S.Sink writer.old writer.new }
{
    if truth {
        writer.write(b" true\n")
    } else {
        writer.write(b" false\n")
    }
}

fn write_line<S: Sink>(
    writer: &mut TextWriter<'_, S>,
    instance: &NumberedInstance<'_>,
    truth: bool,
) -> Result<(), E02>
    ensures { Sends (solution_line (instance_name instance.now.verified.now instance.now.number)
        truth) result S.Sink writer.old writer.new }
{
    write_instance_name(writer, instance.verified, instance.number)?;
    write_truth(writer, truth)
}

fn write_lines<S: Sink>(
    writer: &mut TextWriter<'_, S>,
    verified: &Verified,
    solved: &Solved,
    rows: &IndexedRows,
) -> Result<(), E02>
    requires trees { ModuleHasTrees verified.now }
    requires rows { AreModuleRows verified.now rows.now }
    requires game { IsModuleGame verified.now rows.now solved.now.built }
    ensures { (trees : ℕ → Tree) → AreTrees verified.now trees
        → Sends (module_solution_text verified.now trees rows.now)
        result S.Sink writer.old writer.new }
{
    for k in 0..rows.len() {
        let truth = solved.row_truth(k);
        let instance = NumberedInstance {
            verified,
            number: rows.number(k),
        };
        write_line(writer, &instance, truth)?;
    }
    Ok(())
}

/// Appends the solution at the reached instances: a line for each, by rising number, with its name
/// and its truth.
///
/// # Errors
/// `Memory` before the first byte. After `E02` a part that begins the text, and not the whole of
/// it, went out.
pub fn solution_text<S: Sink>(
    alloc: Global,
    verified: &Verified,
    solved: &Solved,
    rows: &IndexedRows,
    sink: &mut S,
) -> Result<(), WriteError>
    requires trees { ModuleHasTrees verified.now }
    requires rows { AreModuleRows verified.now rows.now }
    requires game { IsModuleGame verified.now rows.now solved.now.built }
    ensures { Delivers was_not_written
        (IsTextOfTrees verified.now (λ trees. module_solution_text verified.now trees rows.now))
        result S.Sink sink.old sink.new }
{
    let mut buffer = TextBuffer::new(alloc)?;
    let mut writer = TextWriter {
        buffer: &mut buffer,
        sink,
    };
    write_lines(&mut writer, verified, solved, rows)?;
    writer.finish()?;
    Ok(())
}
