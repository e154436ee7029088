//! The modules of the texts of properties.
ghost use Rattle.std.specs.Prelude.{◌≡◌, IfOk};
ghost use Rattle.pb_command_models.specs.Outcomes.{IsModuleAsked, IsModuleFor, excess_of};

use crate::property_text::{AskedText, PropertyText};
use pb_base::OrMemory;
use pb_command_faults::{PropertyExcess, SolveFault};
use pb_command_texts::verified_laid_out;
use pb_verifier::Verified;
use std::alloc::{AllocError, Global};

/// The module of the text of a property, or what of the text is too large.
#[derive(Drop)]
pub(crate) enum PropertyModule {
    Verified(Verified),
    TooLarge(PropertyExcess),
}

/// That of the property at a place.
#[derive(Drop)]
pub(crate) struct AskedModule {
    pub place: usize,
    pub compiled: PropertyModule,
}

// What of a property is too large, by the fault of the code of its text.
fn excess_of(fault: SolveFault) -> Option<PropertyExcess>
    ensures { result ≡ excess_of fault }
{
    match fault {
        SolveFault::Limit(excess) => Some(PropertyExcess::Code(excess.limit)),
        _ => None,
    }
}

/// The module of a property's text.
///
/// # Errors
/// Memory was refused.
pub(crate) fn property_module(
    alloc: Global,
    text: PropertyText,
) -> Result<PropertyModule, AllocError>
    ensures { IfOk result (IsModuleFor text) }
{
    let typed = match text {
        PropertyText::Typed(typed) => typed,
        PropertyText::TooLarge => return Ok(PropertyModule::TooLarge(PropertyExcess::Text)),
    };
    match verified_laid_out(alloc, typed) {
        Ok(verified) => Ok(PropertyModule::Verified(verified)),
        Err(OrMemory::Memory) => Err(AllocError),
        Err(OrMemory::Refused(fault)) => match excess_of(fault) {
            Some(excess) => Ok(PropertyModule::TooLarge(excess)),
            None => unreachable!(),
        },
    }
}

/// The module of the text of the property at a place.
///
/// # Errors
/// Memory was refused.
pub(crate) fn asked_module(alloc: Global, asked: AskedText) -> Result<AskedModule, AllocError>
    ensures { IfOk result (IsModuleAsked asked) }
{
    let AskedText { place, text } = asked;
    let compiled = property_module(alloc, text)?;
    Ok(AskedModule { place, compiled })
}
