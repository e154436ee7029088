//! The texts of the properties that are asked for.
ghost use Rattle.std.specs.Prelude.{◌≡◌, ◌<◌, length};
ghost use Rattle.std.specs.List.{All};
ghost use Rattle.pb_command_models.specs.Outcomes.{AsksProperties, AsksProperty, AsksUntyped};

use pb_base::OrMemory;
use pb_command_faults::SolveFault;
use pb_model_properties::{ModelError, SolvedModel, is_limit, text_at};
use pb_typing::Typed;
use std::alloc::Global;

/// The text of a property, unless it passes a limit of texts.
#[derive(Drop)]
pub(crate) enum PropertyText {
    Typed(Typed),
    TooLarge,
}

/// The text of the property at a place, or that which asks for the step there.
#[derive(Drop)]
pub(crate) struct AskedText {
    pub place: usize,
    pub text: PropertyText,
}

/// The text of the property at a place that isn't well typed by this error.
pub(crate) fn untyped(error: ModelError, place: usize) -> Result<AskedText, OrMemory<SolveFault>>
    ensures { AsksUntyped error place result }
{
    match error {
        OrMemory::Memory => Err(OrMemory::Memory),
        OrMemory::Refused(fault) => {
            if is_limit(fault) {
                return Ok(AskedText {
                    place,
                    text: PropertyText::TooLarge,
                });
            }
            Err(OrMemory::Refused(SolveFault::from(fault)))
        }
    }
}

/// The text of the property at a place.
///
/// # Errors
/// `Typing` where it isn't well typed by another rule than that of limits.
pub(crate) fn asked_text(
    alloc: Global,
    solved: &SolvedModel,
    place: usize,
) -> Result<AskedText, OrMemory<SolveFault>>
    requires { place < length solved.now.typed.model.properties.items }
    ensures { AsksProperty solved.now place result }
{
    match text_at(alloc, solved, place) {
        Ok(typed) => Ok(AskedText {
            place,
            text: PropertyText::Typed(typed),
        }),
        Err(error) => untyped(error, place),
    }
}

/// The texts of the properties at these places.
///
/// # Errors
/// As with `asked_text`.
pub(crate) fn asked_texts(
    alloc: Global,
    solved: &SolvedModel,
    places: &[usize],
) -> Result<Vec<AskedText>, OrMemory<SolveFault>>
    requires { All (λ place. place < length solved.now.typed.model.properties.items) places.now }
    ensures { AsksProperties solved.now places.now result }
{
    let mut texts = Vec::new(alloc);
    for place in places {
        let asked = asked_text(alloc, solved, *place)?;
        texts.push(asked)?;
    }
    Ok(texts)
}
