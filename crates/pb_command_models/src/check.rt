//! The verdicts on the properties of a model.
ghost use Rattle.std.specs.Prelude.{◌≡◌, ◌≢◌, [], Err};
ghost use Rattle.pb_command_faults.specs.declared.solve_fault.SolveFault.TheVariants.{NoProperty};
ghost use Rattle.pb_command_models.specs.Models.{asked_names};
ghost use Rattle.pb_command_models.specs.Writes.{DeliversVerdicts, ReportsVerdicts};

use crate::decision::{DecisionOptions, findings_of};
use crate::finding_lines::lines_of;
use crate::joint::satisfied_too;
use crate::property_text::asked_texts;
use crate::reached_steps::steps_on;
use crate::step_lines::{push_lines_of_steps, status_of_checked};
use crate::symmetry::{SymmetryFindings, symmetry_findings};
use pb_base::OrMemory;
use pb_command_faults::{SolveError, SolveFault};
use pb_command_line::{Checking, Status};
use pb_command_modules::deliver;
use pb_command_solver::{Context, Progress};
use pb_command_texts::{ShortInput, solve_options};
use pb_model_properties::{asked_of, read_protocol};
use pb_sorts::Sink;
use std::thread::Threads;

// The lines of what is found, and how the run ends.
#[derive(Drop)]
struct CheckReport {
    lines: String,
    status: Status,
}

// Those of what is found of the model that the bytes say. The texts of all properties that are
// asked for are made before the first is solved.
fn checked_report<R: Threads + Sync, G: Progress + Sync>(
    context: &Context<'_, R, G>,
    input: ShortInput<'_>,
    options: &Checking,
) -> Result<CheckReport, OrMemory<SolveFault>>
    ensures { ReportsVerdicts options.now input.entry.bytes.now result }
{
    let alloc = context.alloc;
    let solved = match read_protocol(alloc, input.bytes) {
        Ok(solved) => solved,
        Err(error) => return Err(error.raise()),
    };
    let places = match asked_of(alloc, &solved.typed.model.properties, &options.properties) {
        Ok(places) => places,
        Err(error) => return Err(error.raise()),
    };
    let texts = asked_texts(alloc, &solved, &places)?;
    let deciding = DecisionOptions {
        solving: solve_options(options.solving),
        counts: options.counts,
        symmetry: options.symmetry,
    };
    let symmetry = symmetry_findings(context, input, &solved, &places, deciding)?;
    let SymmetryFindings {
        satisfied,
        lines: notes,
    } = symmetry;
    let satisfied = satisfied_too(context, &solved, &places, satisfied, deciding)?;
    let findings = findings_of(context, input, texts, &satisfied, deciding)?;
    let steps = steps_on(context, &solved, options)?;
    let properties = &solved.typed.model.properties;
    let mut lines = lines_of(alloc, properties, &findings, &notes, options.counts)?;
    push_lines_of_steps(&mut lines, &solved, &steps, options.counts)?;
    let status = status_of_checked(&findings, &steps, options.status);
    Ok(CheckReport { lines, status })
}

/// Checks a model: writes for each property that is asked for, in the model's order, a line with
/// the verdict on it.
///
/// It is `true` where the protocol satisfies the property, and `false` where it doesn't, whatever
/// lies outside the ranges: because no reached instance of its text calls one outside, or because
/// the protocol satisfies the negation. Else it is `unknown`, and the next line has the number of
/// instances that call one outside. It is `refused`, by the number of a rule, where its text is too
/// large, or where the verdict needs its negation and that is refused.
/// Where counts are asked for, three lines with them follow each verdict, and after all a line
/// names each step that can be taken in no reached state: those of the model, then those of the
/// protocol that come to none in it.
/// Where symmetry is requested, a line after each verdict names elements of a sort that may be
/// permuted where the property is decided: of the states that differ by such a permutation one is
/// explored (Ip and Dill 1996), and where that shows the property to be satisfied, there is no more
/// to do. Verdicts are those without symmetry.
///
/// Each text is explored and solved once, as `solve_text` solves a text; those of negations only
/// where a property isn't satisfied and instances outside were called, and those that ask for steps
/// where counts are asked for. Without counts the invariants among the properties are explored
/// together first, by one text: where it shows that all of them are satisfied, none is explored by
/// itself, nor refused where its own text is too large. Of each text the instances nearest to the
/// initial one are tried before all: where those of the text show that the property is satisfied,
/// or those of its negation that this is, there is no more to do.
///
/// # Errors
/// `Text` and `Typing` say which rule the model breaks, or the text of a property that is asked
/// for, or, where counts are asked for, one that asks for a step, but for that of limits, and
/// where. `NoProperty` comes exactly where the model has no property of a name. Others are as with
/// `solve_text`, but for `Limit` and `TooManyVertices`.
pub fn check_text<R: Threads + Sync, G: Progress + Sync, S: Sink>(
    context: &Context<'_, R, G>,
    input: ShortInput<'_>,
    options: &Checking,
    writer: &mut S,
) -> Result<Status, SolveError>
    // The status is that of what was found.
    ensures verdicts { DeliversVerdicts options.now input.entry.bytes.now result
        S.Sink writer.old writer.new }
    ensures named { result ≡ Err (SolveError.Refused NoProperty) → asked_names options.now ≢ [] }
{
    let report = checked_report(context, input, options)?;
    deliver(report.lines.as_bytes(), writer)?;
    Ok(report.status)
}
