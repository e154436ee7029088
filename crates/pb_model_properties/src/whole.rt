//! The texts of all properties: a model passes as a whole, whichever property is asked for.

ghost use Rattle.std.specs.Prelude.{◌≡◌, ◌<◌, length, Some, OnOk};
ghost use Rattle.std.specs.List.{slice_get};
ghost use Rattle.pb_base.specs.OrMemory.{IfRefused};
ghost use Rattle.pb_model_tree.specs.Form.{PropertyForm, model_form};
ghost use Rattle.pb_model_properties.specs.Refusals.{HasPassingTexts, HasRefusedText, IsRefusedBeyond};
ghost use Rattle.pb_model_properties.specs.Refusals.{PassesAsText, PassesLimits, is_limit};

use crate::solved::SolvedModel;
use crate::text::text_at;
use pb_base::OrMemory;
use pb_model_faults::{ModelError, ModelFault};
use pb_typing_declarations::TypingRule;
use std::alloc::Global;

/// Whether a fault is that of a limit of texts, which refuses its property alone.
pub fn is_limit(fault: ModelFault) -> bool
    ensures { result ≡ is_limit fault }
{
    match fault {
        ModelFault::Typing(broken) => match broken.rule {
            TypingRule::Limit => true,
            _ => false,
        },
        _ => false,
    }
}

/// Nothing of the error of a limit, else the error.
fn beyond_limits(error: ModelError) -> Result<(), ModelError>
    ensures { PassesLimits error result }
{
    match error {
        OrMemory::Memory => Err(OrMemory::Memory),
        OrMemory::Refused(fault) => {
            if is_limit(fault) {
                return Ok(());
            }
            Err(OrMemory::Refused(fault))
        }
    }
}

/// The text of the property at a place is well typed, or passes a limit.
fn check_text(alloc: Global, solved: &SolvedModel, place: usize) -> Result<(), ModelError>
    requires { place < length solved.now.typed.model.properties.items }
    ensures passes { OnOk result ((p : PropertyForm)
        → slice_get (model_form solved.now.typed.model).properties place ≡ Some p
        → PassesAsText solved.now p) }
    ensures refused { IfRefused result (λ fault. (p : PropertyForm)
        → slice_get (model_form solved.now.typed.model).properties place ≡ Some p
        → IsRefusedBeyond solved.now p fault) }
{
    match text_at(alloc, solved, place) {
        Ok(text) => {
            drop(text);
            Ok(())
        }
        Err(error) => beyond_limits(error),
    }
}

/// The text of each property is well typed, or passes a limit.
pub(crate) fn check_texts(alloc: Global, solved: &SolvedModel) -> Result<(), ModelError>
    ensures passes { OnOk result (HasPassingTexts solved.now) }
    ensures refused { IfRefused result (HasRefusedText solved.now) }
{
    for place in 0..solved.typed.model.properties.len() {
        check_text(alloc, solved, place)?;
    }
    Ok(())
}
