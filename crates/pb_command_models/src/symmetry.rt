//! Properties that symmetry shows to be satisfied: of states that differ by a permutation of like
//! elements one is explored.
ghost use Rattle.std.specs.Prelude.{◌≡◌, ◌<◌, [], length, map, string_bytes, true};
ghost use Rattle.std.specs.Prelude.{IfOk, IfSome};
ghost use Rattle.std.specs.List.{All};
ghost use Rattle.pb_protocol_tree.specs.Form.{ProtocolForm, protocol_form};
ghost use Rattle.pb_model_tree.specs.Form.{model_form};
ghost use Rattle.pb_model_properties.specs.Joint.{IsSatisfiedAt};
ghost use Rattle.pb_model_properties.specs.Said.{IsModelFor, IsModelOf, IsTheReading};
ghost use Rattle.pb_model_properties.specs.Words.{IsToldModelOf};
ghost use Rattle.pb_command_models.specs.Outcomes.{AreSatisfied, IsModuleAt};
ghost use Rattle.pb_command_models.specs.Symmetries.{AddsFinding, AreLinesAt, AreSymmetryLines};
ghost use Rattle.pb_command_models.specs.Symmetries.{HasSymmetryLine, IsModelled, IsPermutableAt};
ghost use Rattle.std.specs.Prelude.{ℕ};

use crate::decision::DecisionOptions;
use crate::property_module::{AskedModule, PropertyModule, asked_module};
use crate::property_text::asked_text;
use pb_base::OrMemory;
use pb_command_solver::{Context, Phase, Progress};
use pb_command_texts::ShortInput;
use pb_game_of_trees::Crew;
use pb_model_properties::{SolvedModel, parse_protocol};
use pb_property_symmetry::{
    Permutable, permutable_elements, truth_by_exchanges, truths_by_exchanges_are_answers,
};
use pb_protocol_scalar_sets::push_symmetry;
use pb_protocol_tree::Protocol;
use std::alloc::{AllocError, Global};
use std::thread::Threads;

/// The places of properties that are satisfied, and a line for each property with the elements that
/// may be permuted where it is decided.
#[derive(Drop)]
pub(crate) struct SymmetryFindings {
    pub satisfied: Vec<usize>,
    pub lines: Vec<String>,
}

impl SymmetryFindings {
    fn new(alloc: Global) -> SymmetryFindings
        ensures satisfied { result.satisfied.items ≡ [] }
        ensures lines { result.lines.items ≡ [] }
    {
        SymmetryFindings {
            satisfied: Vec::new(alloc),
            lines: Vec::new(alloc),
        }
    }
}

/// A protocol, and the model that is solved in its place.
#[derive(Clone, Copy)]
struct Modelled<'a> {
    protocol: &'a Protocol,
    solved: &'a SolvedModel,
}

// The elements that may be permuted where the property at a place is decided.
fn permutable_at<'a>(
    alloc: Global,
    protocol: &'a Protocol,
    place: usize,
) -> Result<Option<Permutable<'a>>, AllocError>
    ensures { IfOk result (λ found. IfSome found
        (IsPermutableAt (protocol_form protocol.now) place)) }
{
    match protocol.properties.get(place) {
        Some(property) => permutable_elements(alloc, protocol, property),
        None => Ok(None),
    }
}

// The line that names these elements.
fn line_of(
    alloc: Global,
    protocol: &Protocol,
    found: &Option<Permutable<'_>>,
) -> Result<String, AllocError>
    ensures { (place : ℕ) → IfSome found.now (IsPermutableAt (protocol_form protocol.now) place)
        → IfOk result (λ line. HasSymmetryLine (protocol_form protocol.now) place
        (string_bytes line)) }
{
    let mut line = String::new(alloc);
    match found {
        Some(found) => push_symmetry(&mut line, &found.set(protocol))?,
        None => line.push_str("no symmetry\n")?,
    }
    Ok(line)
}

// The module of the property at a place, unless its text is refused.
fn module_at(
    alloc: Global,
    solved: &SolvedModel,
    place: usize,
) -> Result<Option<AskedModule>, AllocError>
    requires { place < length solved.now.typed.model.properties.items }
    ensures place { IfOk result (λ found. IfSome found (λ made. made.place ≡ place)) }
    ensures made { IfOk result (λ found. IfSome found
        (IsModuleAt (model_form solved.now.typed.model))) }
{
    match asked_text(alloc, solved, place) {
        Ok(asked) => Ok(Some(asked_module(alloc, asked)?)),
        Err(OrMemory::Refused(_)) => Ok(None),
        Err(OrMemory::Memory) => Err(AllocError),
    }
}

// Whether representatives show that the property at a place is satisfied.
fn is_satisfied_at<R: Threads + Sync, G: Progress + Sync>(
    context: &Context<'_, R, G>,
    modelled: Modelled<'_>,
    place: usize,
    found: &Permutable<'_>,
    options: DecisionOptions,
) -> Result<bool, AllocError>
    requires model { IsModelled modelled.protocol.now modelled.solved.now }
    requires permutable { IsPermutableAt (protocol_form modelled.protocol.now) place found.now }
    requires within { place < length modelled.solved.now.typed.model.properties.items }
    ensures { IfOk result (λ satisfied. satisfied ≡ true
        → IsSatisfiedAt (model_form modelled.entry.solved.now.typed.model) place) }
{
    truths_by_exchanges_are_answers();
    let Some(made) = module_at(context.alloc, modelled.solved, place)? else {
        return Ok(false);
    };
    let PropertyModule::Verified(verified) = &made.compiled else {
        return Ok(false);
    };
    context.gate.begins(Phase::Exploring);
    let crew = Crew {
        rt: context.rt,
        alloc: context.alloc,
        workers: options.solving.workers.count,
    };
    let set = found.set(modelled.protocol);
    let truth = truth_by_exchanges(&crew, verified, &set, context.gate)?;
    Ok(truth.unwrap_or(false))
}

// Whether representatives show that the property at a place is satisfied. Where counts are
// requested, they aren't explored.
fn shows_satisfied<R: Threads + Sync, G: Progress + Sync>(
    context: &Context<'_, R, G>,
    modelled: Modelled<'_>,
    place: usize,
    found: &Option<Permutable<'_>>,
    options: DecisionOptions,
) -> Result<bool, AllocError>
    requires model { IsModelled modelled.protocol.now modelled.solved.now }
    requires permutable { IfSome found.now
        (IsPermutableAt (protocol_form modelled.protocol.now) place) }
    requires within { place < length modelled.solved.now.typed.model.properties.items }
    ensures { IfOk result (λ satisfied. satisfied ≡ true
        → IsSatisfiedAt (model_form modelled.entry.solved.now.typed.model) place) }
{
    if options.counts {
        return Ok(false);
    }
    match found {
        Some(found) => is_satisfied_at(context, modelled, place, found, options),
        None => Ok(false),
    }
}

// Adds the line of the property at a place, and the place where representatives show that the
// property is satisfied.
fn add_finding<R: Threads + Sync, G: Progress + Sync>(
    context: &Context<'_, R, G>,
    modelled: Modelled<'_>,
    place: usize,
    options: DecisionOptions,
    findings: &mut SymmetryFindings,
) -> Result<(), AllocError>
    requires model { IsModelled modelled.protocol.now modelled.solved.now }
    requires within { place < length modelled.solved.now.typed.model.properties.items }
    ensures { AddsFinding (protocol_form modelled.entry.protocol.now)
        (model_form modelled.entry.solved.now.typed.model) place findings.old findings.new result }
{
    let found = permutable_at(context.alloc, modelled.protocol, place)?;
    let line = line_of(context.alloc, modelled.protocol, &found)?;
    findings.lines.push(line)?;
    let satisfied = shows_satisfied(context, modelled, place, &found, options)?;
    if satisfied {
        findings.satisfied.push(place)?;
    }
    Ok(())
}

// What symmetry shows of the properties at these places.
fn findings_in<R: Threads + Sync, G: Progress + Sync>(
    context: &Context<'_, R, G>,
    modelled: Modelled<'_>,
    places: &[usize],
    options: DecisionOptions,
) -> Result<SymmetryFindings, AllocError>
    requires model { IsModelled modelled.protocol.now modelled.solved.now }
    requires within { All
        (λ place. place < length modelled.solved.now.typed.model.properties.items) places.now }
    ensures satisfied { IfOk result (λ findings. AreSatisfied findings.satisfied.items
        (model_form modelled.entry.solved.now.typed.model)) }
    ensures lines { IfOk result (λ findings. AreLinesAt (protocol_form modelled.entry.protocol.now)
        places.now (map string_bytes findings.lines.items)) }
{
    let mut findings = SymmetryFindings::new(context.alloc);
    for place in places {
        add_finding(context, modelled, *place, options, &mut findings)?;
    }
    Ok(findings)
}

// Lines that say of each of so many properties that no elements may be permuted.
fn without_symmetry(alloc: Global, places: &[usize]) -> Result<SymmetryFindings, AllocError>
    ensures satisfied { IfOk result (λ findings. findings.satisfied.items ≡ []) }
    ensures lines { IfOk result (λ findings. (protocol : ProtocolForm)
        → AreLinesAt protocol places.now (map string_bytes findings.lines.items)) }
{
    let mut findings = SymmetryFindings::new(alloc);
    for _ in places {
        let mut line = String::new(alloc);
        line.push_str("no symmetry\n")?;
        findings.lines.push(line)?;
    }
    Ok(findings)
}

/// What symmetry shows of the properties at these places, where it is requested: which of them are
/// satisfied, unless counts are requested too, and for each a line with the elements that may be
/// permuted.
///
/// # Errors
/// Memory was refused.
pub(crate) fn symmetry_findings<R: Threads + Sync, G: Progress + Sync>(
    context: &Context<'_, R, G>,
    input: ShortInput<'_>,
    solved: &SolvedModel,
    places: &[usize],
    options: DecisionOptions,
) -> Result<SymmetryFindings, AllocError>
    requires told { IsToldModelOf input.bytes.now solved.now }
    requires within { All
        (λ place. place < length solved.now.typed.model.properties.items) places.now }
    ensures satisfied { IfOk result (λ findings. AreSatisfied findings.satisfied.items
        (model_form solved.now.typed.model)) }
    ensures lines { IfOk result (λ findings.
        (said : IsModelOf input.entry.bytes.now (model_form solved.now.typed.model))
        → AreSymmetryLines options.symmetry said.protocol places.now
        (map string_bytes findings.lines.items)) }
{
    if !options.symmetry {
        return Ok(SymmetryFindings::new(context.alloc));
    }
    match parse_protocol(context.alloc, input.bytes) {
        Ok(protocol) => {
            let protocol = &protocol;
            findings_in(context, Modelled { protocol, solved }, places, options)
        }
        Err(OrMemory::Refused(_)) => without_symmetry(context.alloc, places),
        Err(OrMemory::Memory) => Err(AllocError),
    }
}
