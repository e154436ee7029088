//! The negations of properties, each alone in the protocol: one that is refused refuses its own
//! property, whatever the others are.
ghost use Rattle.std.specs.Prelude.{◌≡◌, true};
ghost use Rattle.pb_model_properties.specs.Negations.{HasPropertyAt};
ghost use Rattle.pb_command_models.specs.Outcomes.{FindsNegation, IsExcessBy, IsNegation, IsRule};
ghost use Rattle.pb_command_models.specs.Outcomes.{ReadsNegation, TakesNegation, is_of};

use crate::property_module::{PropertyModule, property_module};
use crate::property_text::PropertyText;
use pb_base::OrMemory;
use pb_command_faults::PropertyExcess;
use pb_command_texts::ShortInput;
use pb_model_properties::{ModelError, ModelFault, SolvedModel, read_negation, text_at};
use std::alloc::{AllocError, Global};
use std::marker::Model;

/// What is solved in the place of the protocol with the negation of the property at a place alone.
#[derive(Drop)]
pub(crate) struct Negation {
    pub place: usize,
    pub solved: SolvedModel,
}

/// An input with the negation that was read last, which mostly is needed again: a part of its
/// instances is solved first, then all. Contracts see its bytes.
#[derive(Drop)]
pub(crate) struct InputWithNegation<'a> {
    input: ShortInput<'a>,
    known: Option<Negation>,
}

impl<'a> Model for InputWithNegation<'a> {
    ghost use Rattle.std.specs.Prelude.{ℕ, List};
    ghost use Rattle.pb_command_models.specs.Outcomes.{IsNegation};

    ghost Value = { List ℕ };

    ghost view = { λ asked. asked.input.bytes.now };

    ghost invariant = { λ asked. IsNegation asked.input.bytes.now asked.known };
}

impl<'a> InputWithNegation<'a> {
    /// An input of which no negation was read.
    pub(crate) fn new(input: ShortInput<'a>) -> InputWithNegation<'a>
        ensures { result ≡ input.entry.bytes.now }
    {
        let known = None;
        InputWithNegation { input, known }
    }
}

// Whether the negation that is known is that of the property at a place.
fn is_of(known: &Option<Negation>, place: usize) -> bool
    ensures { result ≡ is_of place known.now }
{
    match known {
        None => false,
        Some(negation) => negation.place == place,
    }
}

// Reads the negation of the property at a place, unless it is known.
fn read_once(
    alloc: Global,
    input: ShortInput<'_>,
    known: &mut Option<Negation>,
    place: usize,
) -> Result<(), ModelError>
    requires known { IsNegation input.bytes.now known.now }
    requires within { HasPropertyAt input.bytes.now place }
    ensures { ReadsNegation input.entry.bytes.now place known.new result }
{
    if !is_of(known, place) {
        let solved = read_negation(alloc, input.bytes, place)?;
        *known = Some(Negation { place, solved });
    }
    Ok(())
}

/// What is solved in the place of the negation of the property at a place. The negation is not kept
/// for a later call.
///
/// # Errors
/// As with `read_negation`.
pub(crate) fn take_negation(
    alloc: Global,
    input: &mut InputWithNegation<'_>,
    place: usize,
) -> Result<SolvedModel, ModelError>
    requires { HasPropertyAt input.now place }
    ensures { TakesNegation place input.old input.new result }
{
    read_once(alloc, input.input, &mut input.known, place)?;
    let Some(negation) = input.known.take() else {
        unreachable!();
    };
    Ok(negation.solved)
}

/// How a negation is refused by this fault.
pub(crate) fn excess_by(fault: ModelFault) -> PropertyExcess
    requires { IsRule fault }
    ensures { IsExcessBy fault result }
{
    match fault {
        ModelFault::Text(broken) => PropertyExcess::NegationText(broken.rule),
        ModelFault::Typing(broken) => PropertyExcess::NegationTyping(broken.rule),
        ModelFault::NoProperty => unreachable!(),
    }
}

/// The module of the negation of the property at a place, or how the negation is refused.
///
/// # Errors
/// Memory was refused.
pub(crate) fn negation_module(
    alloc: Global,
    input: &mut InputWithNegation<'_>,
    place: usize,
) -> Result<PropertyModule, AllocError>
    requires { HasPropertyAt input.now place }
    ensures { FindsNegation place input.old input.new result }
{
    match read_once(alloc, input.input, &mut input.known, place) {
        Ok(()) => (),
        Err(OrMemory::Memory) => return Err(AllocError),
        Err(OrMemory::Refused(fault)) => return Ok(PropertyModule::TooLarge(excess_by(fault))),
    }
    let Some(negation) = &input.known else {
        unreachable!();
    };
    match text_at(alloc, &negation.solved, 0) {
        Ok(typed) => property_module(alloc, PropertyText::Typed(typed)),
        Err(OrMemory::Memory) => Err(AllocError),
        Err(OrMemory::Refused(fault)) => Ok(PropertyModule::TooLarge(excess_by(fault))),
    }
}
