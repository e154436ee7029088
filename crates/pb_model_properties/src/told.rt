//! How users are told of an unfolded model: what its steps are called, and where they stand in the
//! protocol.

ghost use Rattle.std.specs.Prelude.{◌≡◌, map, string_bytes, IfOk};
ghost use Rattle.pb_base.specs.OrMemory.{raised};
ghost use Rattle.pb_protocol_unfolder.specs.Origins.{origin_name, origin_place};
ghost use Rattle.pb_model_faults.specs.declared.ModelFault.TheVariants.{Typing};
ghost use Rattle.pb_model_properties.specs.Refusals.{told_fault, told_place, told_places};

use crate::solved::ToldNames;
use pb_base::OrMemory;
use pb_model_faults::{ModelError, ModelFault};
use pb_protocol_unfolder::StepOrigin;
use pb_text_tree::Place;
use pb_typing_declarations::{TypeError, TypingFault};
use std::alloc::{AllocError, Global};

/// What steps are called.
pub(crate) fn names_of(alloc: Global, steps: &[StepOrigin]) -> Result<Vec<String>, AllocError>
    ensures { IfOk result (λ v. map string_bytes v.items ≡ map origin_name steps.now) }
{
    let mut names = Vec::new(alloc);
    for step in steps {
        names.push(step.name.as_str().to_owned(alloc)?)?;
    }
    Ok(names)
}

/// Where the names of steps stand in the protocol.
pub(crate) fn places_of(alloc: Global, steps: &[StepOrigin]) -> Result<Vec<Place>, AllocError>
    ensures { IfOk result (λ v. v.items ≡ map origin_place steps.now) }
{
    let mut places = Vec::new(alloc);
    for step in steps {
        places.push(step.place)?;
    }
    Ok(places)
}

/// Where a place of an unfolded model stands in the protocol: one at column 0 is that of the step
/// of the line's number.
fn told_place(steps: &[Place], place: Place) -> Place
    ensures { result ≡ told_place steps.now place }
{
    if place.column != 0 {
        return place;
    }
    match steps.get(place.line as usize) {
        Some(step) => *step,
        None => place,
    }
}

/// A fault of the model, told of the protocol. One of a model that wasn't unfolded stands there.
fn told_fault(names: &Option<ToldNames>, fault: TypingFault) -> TypingFault
    ensures { result ≡ told_fault (told_places names.now) fault }
{
    match names {
        None => fault,
        Some(names) => TypingFault {
            rule: fault.rule,
            place: told_place(&names.places, fault.place),
        },
    }
}

/// Why the model or the text of a property is refused, told of the protocol.
pub(crate) fn told_error(names: &Option<ToldNames>, error: TypeError) -> ModelError
    ensures { raised (λ fault above. above
        ≡ Typing (told_fault (told_places names.now) fault)) error result }
{
    match error {
        OrMemory::Refused(fault) => OrMemory::Refused(ModelFault::Typing(told_fault(names, fault))),
        OrMemory::Memory => OrMemory::Memory,
    }
}
