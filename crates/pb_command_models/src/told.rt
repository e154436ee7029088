//! The report on the property at a place: the verdict, and its evidence. That is evidence of the
//! property's own text; but where a line of it rests on a call outside the ranges, it shows that
//! the property isn't satisfied within them, and no more. Then the negation decides, and a verdict
//! that is false has evidence that the negation is satisfied, of which no line rests on such a
//! call.
ghost use Rattle.std.specs.Prelude.{◌≡◌, ◌<◌, IfOk, Some, length, string_bytes};
ghost use Rattle.std.specs.Prelude.{true, false};
ghost use Rattle.std.specs.List.{list_any, slice_get};
ghost use Rattle.pb_base.specs.declared.or_memory.OrMemory.TheVariants as or_memory;
ghost use Rattle.pb_command_faults.specs.declared.solve_fault.SolveFault.TheVariants as solve_fault;
ghost use Rattle.pb_model_tree.specs.Form.{PropertyForm};
ghost use Rattle.pb_model_properties.specs.Words.{IsToldModelOf};
ghost use Rattle.pb_model_words.specs.View.{vocabulary_of};
ghost use Rattle.pb_command_models.specs.Models.{solved_form};
ghost use Rattle.pb_command_models.specs.Outcomes.{verdict_in};
ghost use Rattle.pb_evidence_words.specs.Tellable.{IsTellableShown};
ghost use Rattle.pb_command_models.specs.Why.{AreTellable, IsExplainedThere, IsOwnText, IsToldOf};
ghost use Rattle.pb_command_models.specs.Why.{IsToldShown, IsToldThere, TellsProperty};
ghost use Rattle.pb_command_models.specs.Why.{is_true_verdict, telling_of};

use crate::denial::explained_negation;
use crate::explained::explained_at;
use crate::explained_finding::{Asked, explained_finding};
use crate::finding::Finding;
use crate::finding_lines::verdict_of;
use crate::negation::InputWithNegation;
use crate::property_faults::name_place;
use pb_base::OrMemory;
use pb_command_faults::{PropertyExcess, PropertyFault, SolveFault};
use pb_command_solver::{Context, Progress};
use pb_command_texts::ExplainedText;
use pb_evidence_words::{Shown, push_instance_lines, push_why};
use pb_model_properties::{SolvedModel, Verdict, push_verdict, words_of};
use pb_model_tree::Model;
use pb_model_typing::steps_text;
use pb_model_words::Vocabulary;
use pb_report::Explanation;
use pb_typing::Typed;
use std::alloc::{AllocError, Global};
use std::thread::Threads;

// How a verdict is reported: whether evidence always follows it, and whether by lines of instances.
#[derive(Clone, Copy, PartialEq, Eq)]
struct ToldVerdict {
    verdict: Verdict,
    always: bool,
    lines: bool,
}

// The verdict of a finding, or what is too large for one.
fn verdict_in(finding: Finding) -> Result<Verdict, PropertyExcess>
    ensures { result ≡ verdict_in finding }
{
    match finding {
        Finding::Decided(verdict, _) => Ok(verdict),
        Finding::Shown(truth) => Ok(verdict_of(truth)),
        Finding::Refused(excess) => Err(excess),
    }
}

// Whether the verdict is true.
fn is_true(verdict: Verdict) -> bool
    ensures { result ≡ is_true_verdict verdict }
{
    match verdict {
        Verdict::True => true,
        Verdict::False | Verdict::Unknown => false,
    }
}

// The verdict on a property, followed by evidence.
fn told(
    alloc: Global,
    telling: ToldVerdict,
    name: &str,
    shown: &Shown<'_>,
) -> Result<String, AllocError>
    requires { IsTellableShown shown.now }
    ensures { IfOk result (λ told. IsToldShown telling name.now shown.now (string_bytes told)) }
{
    let mut told = String::new(alloc);
    push_verdict(&mut told, name, telling.verdict)?;
    if telling.always || !is_true(telling.verdict) {
        if telling.lines {
            push_instance_lines(alloc, shown, &mut told)?;
        } else {
            push_why(alloc, shown, &mut told)?;
        }
    }
    Ok(told)
}

// What is explained, but for the vocabulary of the report.
#[derive(Clone, Copy)]
struct ShownParts<'a> {
    model: &'a Model,
    steps: &'a Typed,
    explained: &'a ExplainedText,
    denied: bool,
}

// The report of these parts in this vocabulary, which can't be lent beside what is lent already: so
// they are joined here.
fn told_in(
    alloc: Global,
    telling: ToldVerdict,
    name: &str,
    vocabulary: &Vocabulary<'_>,
    parts: &ShownParts<'_>,
) -> Result<String, AllocError>
    requires { AreTellable parts.now }
    ensures { IfOk result
        (IsToldOf telling (vocabulary_of vocabulary.now) name.now parts.now) }
{
    let explained = parts.explained;
    let shown = Shown {
        model: parts.model,
        vocabulary,
        typed: &explained.typed,
        steps: parts.steps,
        verified: &explained.verified,
        explanation: &explained.explanation,
        denied: parts.denied,
    };
    told(alloc, telling, name, &shown)
}

// The explained text of the property of a name or, where that is denied, of its negation: a text of
// the model beside it.
#[derive(Clone, Copy)]
struct Explained<'a> {
    name: &'a str,
    solved: &'a SolvedModel,
    explained: &'a ExplainedText,
    denied: bool,
}

// The verdict on a property, followed by the evidence of a text.
fn explained_told(
    alloc: Global,
    telling: ToldVerdict,
    shown: &Explained<'_>,
) -> Result<String, AllocError>
    requires { IsExplainedThere shown.now }
    ensures { IfOk result (IsToldThere telling shown.now) }
{
    let model = &shown.solved.typed;
    let steps = steps_text(alloc, model)?;
    let vocabulary = words_of(alloc, shown.solved)?;
    let parts = ShownParts {
        model: &model.model,
        steps: &steps,
        explained: shown.explained,
        denied: shown.denied,
    };
    told_in(alloc, telling, shown.name, &vocabulary, &parts)
}

// How a verdict is reported for this request.
fn telling_of(verdict: Verdict, asked: Asked) -> ToldVerdict
    ensures { result ≡ telling_of verdict asked }
{
    ToldVerdict {
        verdict,
        always: asked.always,
        lines: asked.options.lines,
    }
}

// Whether a line of the evidence rests on a call outside the ranges.
fn rests_on_cut(explanation: &Explanation) -> bool
    ensures { result ≡ list_any (λ cut. cut) explanation.now.cuts.items }
{
    explanation.cuts.iter().any(|cut| *cut)
}

// The error of the property at a place that is refused in this way.
fn refused_property(
    solved: &SolvedModel,
    place: usize,
    excess: PropertyExcess,
) -> OrMemory<SolveFault>
    requires { place < length solved.now.typed.model.properties.items }
    ensures { (q : PropertyForm)
        → slice_get (solved_form solved.now).properties place ≡ Some q
        → result ≡ or_memory.Refused
        (solve_fault.Property (record { excess = excess; place = q.name.place })) }
{
    let place = name_place(&solved.typed, place);
    SolveFault::Property(PropertyFault { excess, place }).into()
}

// The report on the property at a place by its own evidence, of which no line rests on a call
// outside the ranges. The verdict is that of `check_text`.
fn own_told<R: Threads + Sync, G: Progress + Sync>(
    context: &Context<'_, R, G>,
    input: &mut InputWithNegation<'_>,
    shown: &Explained<'_>,
    asked: Asked,
) -> Result<String, OrMemory<SolveFault>>
    requires said { IsToldModelOf input.now shown.now.solved.now }
    requires own { IsOwnText shown.now asked.place }
    requires within { list_any (λ cut. cut) shown.now.explained.now.explanation.cuts.items ≡ false }
    ensures { TellsProperty asked shown.now.solved.now input.old input.new result }
{
    let finding = explained_finding(context, input, shown.explained, asked)?;
    match verdict_in(finding) {
        Err(excess) => Err(refused_property(shown.solved, asked.place, excess)),
        Ok(verdict) => {
            let telling = telling_of(verdict, asked);
            Ok(explained_told(context.alloc, telling, shown)?)
        }
    }
}

// The report on a property of whose own evidence a line rests on such a call. The negation decides:
// where it is satisfied, the verdict is false, by its evidence.
fn cut_told<R: Threads + Sync, G: Progress + Sync>(
    context: &Context<'_, R, G>,
    input: &mut InputWithNegation<'_>,
    shown: &Explained<'_>,
    asked: Asked,
) -> Result<String, OrMemory<SolveFault>>
    requires said { IsToldModelOf input.now shown.now.solved.now }
    requires own { IsOwnText shown.now asked.place }
    requires cut { list_any (λ cut. cut) shown.now.explained.now.explanation.cuts.items ≡ true }
    ensures { TellsProperty asked shown.now.solved.now input.old input.new result }
{
    let denial = match explained_negation(context, input, asked) {
        Ok(denial) => denial,
        Err(OrMemory::Memory) => return Err(OrMemory::Memory),
        Err(OrMemory::Refused(excess)) => {
            return Err(refused_property(shown.solved, asked.place, excess));
        }
    };
    if !denial.explained.explanation.evidence.truth {
        let telling = telling_of(Verdict::Unknown, asked);
        return Ok(explained_told(context.alloc, telling, shown)?);
    }
    let denied = Explained {
        name: shown.name,
        solved: &denial.solved,
        explained: &denial.explained,
        denied: true,
    };
    let telling = telling_of(Verdict::False, asked);
    Ok(explained_told(context.alloc, telling, &denied)?)
}

/// The report on the property at a place.
///
/// # Errors
/// `Property` where something of it is too large, or where the verdict or its evidence needs the
/// negation and that is refused; `Typing` where its text isn't well typed.
pub(crate) fn told_at<R: Threads + Sync, G: Progress + Sync>(
    context: &Context<'_, R, G>,
    input: &mut InputWithNegation<'_>,
    solved: &SolvedModel,
    asked: Asked,
) -> Result<String, OrMemory<SolveFault>>
    requires said { IsToldModelOf input.now solved.now }
    requires within { asked.place < length solved.now.typed.model.properties.items }
    ensures { TellsProperty asked solved.now input.old input.new result }
{
    let explained = explained_at(context, solved, asked.place, asked.options)?;
    let shown = Explained {
        name: &solved.typed.model.properties[asked.place].name.text,
        solved,
        explained: &explained,
        denied: false,
    };
    if rests_on_cut(&explained.explanation) {
        return cut_told(context, input, &shown, asked);
    }
    own_told(context, input, &shown, asked)
}
