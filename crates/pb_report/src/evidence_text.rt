//! Evidence as a text.

ghost use Rattle.std.specs.Prelude.{◌≡◌, ◌<◌, ℕ, Option, None, drop, length, slice_index};
ghost use Rattle.std.specs.Prelude.{slice_index_or};
ghost use Rattle.pb_text_tree.specs.declared.place.Place.{Place};
ghost use Rattle.pb_sorts.specs.Layout.{count_of};
ghost use Rattle.pb_fixpoint_trees.specs.Tree.{Tree};
ghost use Rattle.pb_bytecode.specs.Meaning.{AreTrees, parameters};
ghost use Rattle.pb_game_of_trees.specs.Explored.{ModuleHasTrees};
ghost use Rattle.pb_report.specs.InstanceName.{instance_name};
ghost use Rattle.pb_report.specs.Delivery.{Delivers, was_not_written};
ghost use Rattle.pb_report.specs.Sending.{Sends};
ghost use Rattle.pb_report.specs.EvidenceText.{truth_mark, place_mark, dependency_text};
ghost use Rattle.pb_report.specs.EvidenceText.{cut_mark, line_tail};
ghost use Rattle.pb_report.specs.CallPlaces.{AreCallPlaces, placed_names};
ghost use Rattle.pb_report.specs.ModuleLines.{evidence_line_at};
ghost use Rattle.pb_report.specs.ModuleEvidence.{IsExplanation, module_evidence_text};
ghost use Rattle.pb_report.specs.PlacedEvidence.{IsPlacedEvidence};
ghost use Rattle.pb_report.specs.ModuleTexts.{IsTextOfTrees};

use crate::answer::write_answer;
use crate::instance_name::{NumberedInstance, write_instance_name};
use crate::module_evidence::Explanation;
use crate::{TextBuffer, TextWriter, WriteError};
use pb_sorts::{E02, Sink};
use pb_text_tree::Place;
use pb_verifier::Verified;
use std::alloc::Global;

/// An explanation with places of the calls by which its instances name others: one for each name in
/// the lines, in their order. A name that has none stands without one, so with an empty list all
/// do.
#[derive(Clone, Copy)]
pub struct PlacedExplanation<'a> {
    pub explanation: &'a Explanation,
    pub call_places: &'a [Option<Place>],
}

/// The instances that an instance of a module rests on, with the places of its calls, and whether
/// it rests on a cut call too.
#[derive(Clone, Copy)]
struct Basis<'a> {
    verified: &'a Verified,
    dependencies: &'a [u64],
    call_places: &'a [Option<Place>],
    cut: bool,
    ghost inside: { (k : ℕ) → k < length dependencies.now
        → slice_index dependencies.now k < count_of (parameters verified.now) },
}

/// The list behind the first places.
fn behind<'a>(call_places: &'a [Option<Place>], first: usize) -> &'a [Option<Place>]
    ensures { result.now ≡ drop first call_places.now }
{
    &call_places[first.min(call_places.len())..]
}

/// The place of the call that stands here in the list, if there is one.
fn place_at(call_places: &[Option<Place>], k: usize) -> Option<Place>
    ensures { result ≡ slice_index_or call_places.now k None }
{
    match call_places.get(k) {
        Some(place) => *place,
        None => None,
    }
}

fn write_truth<S: Sink>(writer: &mut TextWriter<'_, S>, truth: bool) -> Result<(), E02>
    ensures { Sends (truth_mark truth) result S.Sink writer.old writer.new }
{
    if truth {
        writer.write(b" true:")
    } else {
        writer.write(b" false:")
    }
}

/// The word for a cut call, where there is one.
fn write_cut<S: Sink>(writer: &mut TextWriter<'_, S>, cut: bool) -> Result<(), E02>
    ensures { Sends (cut_mark cut) result S.Sink writer.old writer.new }
{
    if cut { writer.write(b" cut") } else { Ok(()) }
}

/// The place of a call, where there is one.
fn write_place<S: Sink>(writer: &mut TextWriter<'_, S>, place: Option<Place>) -> Result<(), E02>
    ensures { Sends (place_mark place) result S.Sink writer.old writer.new }
{
    let Some(place) = place else {
        return Ok(());
    };
    writer.write(b"@")?;
    writer.write_number(place.line)?;
    writer.write(b":")?;
    writer.write_number(place.column)
}

/// The name of an instance, after a space, and the place of its call.
fn write_dependency<S: Sink>(
    writer: &mut TextWriter<'_, S>,
    instance: &NumberedInstance<'_>,
    place: Option<Place>,
) -> Result<(), E02>
    ensures { Sends (dependency_text (instance_name instance.now.verified.now) instance.now.number
        place) result S.Sink writer.old writer.new }
{
    writer.write(b" ")?;
    write_instance_name(writer, instance.verified, instance.number)?;
    write_place(writer, place)
}

/// The names of instances, each after a space.
fn write_dependencies<S: Sink>(writer: &mut TextWriter<'_, S>, basis: &Basis<'_>) -> Result<(), E02>
    ensures { Sends (placed_names (instance_name basis.now.verified.now)
        basis.now.dependencies.now basis.now.call_places.now)
        result S.Sink writer.old writer.new }
{
    let numbers = basis.dependencies;
    for k in 0..numbers.len() {
        let instance = NumberedInstance {
            verified: basis.verified,
            number: numbers[k],
        };
        write_dependency(writer, &instance, place_at(basis.call_places, k))?;
    }
    Ok(())
}

/// What stands behind an instance's name.
fn write_line_end<S: Sink>(
    writer: &mut TextWriter<'_, S>,
    truth: bool,
    basis: &Basis<'_>,
) -> Result<(), E02>
    ensures { Sends (line_tail truth (placed_names (instance_name basis.now.verified.now)
        basis.now.dependencies.now basis.now.call_places.now) basis.now.cut)
        result S.Sink writer.old writer.new }
{
    write_truth(writer, truth)?;
    write_dependencies(writer, basis)?;
    write_cut(writer, basis.cut)?;
    writer.write(b"\n")
}

/// The line of the instance at this place.
fn write_line<S: Sink>(
    writer: &mut TextWriter<'_, S>,
    verified: &Verified,
    placed: &PlacedExplanation<'_>,
    k: usize,
) -> Result<(), E02>
    requires place { k < length placed.now.explanation.now.evidence.instances.items }
    requires placed { IsPlacedEvidence verified.now placed.now.explanation.now
        placed.now.call_places.now }
    ensures { (trees : ℕ → Tree) → AreTrees verified.now trees → (place : ℕ → ℕ → Option Place)
        → AreCallPlaces place placed.now.explanation.now.evidence placed.now.call_places.now
        → Sends (evidence_line_at verified.now trees place placed.now.explanation.now.evidence k)
        result S.Sink writer.old writer.new }
{
    let evidence = &placed.explanation.evidence;
    write_instance_name(writer, verified, evidence.instances[k])?;
    let basis = Basis {
        verified,
        dependencies: evidence.dependencies(k),
        call_places: behind(placed.call_places, evidence.places[k]),
        cut: placed.explanation.cuts[k],
    };
    write_line_end(writer, evidence.truth, &basis)
}

fn write_evidence<S: Sink>(
    writer: &mut TextWriter<'_, S>,
    verified: &Verified,
    placed: &PlacedExplanation<'_>,
) -> Result<(), E02>
    requires placed { IsPlacedEvidence verified.now placed.now.explanation.now
        placed.now.call_places.now }
    ensures { (trees : ℕ → Tree) → AreTrees verified.now trees → (place : ℕ → ℕ → Option Place)
        → AreCallPlaces place placed.now.explanation.now.evidence placed.now.call_places.now
        → Sends (module_evidence_text verified.now trees place placed.now.explanation.now.evidence)
        result S.Sink writer.old writer.new }
{
    let evidence = &placed.explanation.evidence;
    write_answer(writer, evidence.truth)?;
    for k in 0..evidence.instances.len() {
        write_line(writer, verified, placed, k)?;
    }
    Ok(())
}

/// Appends evidence for the truth of a module's initial instance: the answer, and then a line for
/// each instance with the instances that it rests on, the initial one first and the nearest before
/// others, and with the places that are given of its calls. The word `cut` stands last in a line
/// whose instance rests on a cut call too.
///
/// # Errors
/// `Memory` before the first byte. After `E02` a part that begins the text, and not the whole of
/// it, went out.
pub fn evidence_text<S: Sink>(
    alloc: Global,
    verified: &Verified,
    placed: &PlacedExplanation<'_>,
    sink: &mut S,
) -> Result<(), WriteError>
    requires trees { ModuleHasTrees verified.now }
    requires explanation { IsExplanation verified.now placed.now.explanation.now }
    requires places { (place : ℕ → ℕ → Option Place)
        × AreCallPlaces place placed.now.explanation.now.evidence placed.now.call_places.now }
    ensures { (place : ℕ → ℕ → Option Place)
        → AreCallPlaces place placed.now.explanation.now.evidence placed.now.call_places.now
        → Delivers was_not_written (IsTextOfTrees verified.now (λ trees.
        module_evidence_text verified.now trees place placed.now.explanation.now.evidence)) result
        S.Sink sink.old sink.new }
{
    let mut buffer = TextBuffer::new(alloc)?;
    let mut writer = TextWriter {
        buffer: &mut buffer,
        sink,
    };
    write_evidence(&mut writer, verified, placed)?;
    writer.finish()?;
    Ok(())
}
