//! What keeps constants from being settled, and a protocol from being unfolded, as a fault of a
//! model.
ghost use Rattle.std.specs.Prelude.{◌≡◌};
ghost use Rattle.pb_base.specs.OrMemory.{raised};
ghost use Rattle.pb_model_properties.specs.Faults.{as_model_fault, constants_fault};

use pb_base::OrMemory;
use pb_model_faults::{ModelError, ModelFault};
use pb_protocol_constants::{ConstantsError, ConstantsFault};
use pb_protocol_unfolder::{UnfoldingError, UnfoldingFault, UnfoldingRule};
use pb_protocol_unfolder_terms::UnfoldRule;
use pb_text::{TextFault, TextRule};
use pb_typing_declarations::{TypingFault, TypingRule};

fn as_model_fault(fault: UnfoldingFault) -> ModelFault
    ensures { result ≡ as_model_fault fault }
{
    let place = fault.place;
    let rule = match fault.rule {
        UnfoldingRule::Operators => {
            let rule = TextRule::LimitExceeded;
            return ModelFault::Text(TextFault { rule, place });
        }
        UnfoldingRule::Names => TypingRule::NameTwice,
        UnfoldingRule::Value => TypingRule::WrongKind,
        UnfoldingRule::Index => TypingRule::OutsideCarrier,
        UnfoldingRule::Count => TypingRule::Limit,
    };
    ModelFault::Typing(TypingFault { rule, place })
}

/// Why a protocol isn't unfolded, as an error of a model.
pub(crate) fn as_model_error(error: UnfoldingError) -> ModelError
    ensures { raised (λ fault above. above ≡ as_model_fault fault) error result }
{
    match error {
        OrMemory::Refused(fault) => OrMemory::Refused(as_model_fault(fault)),
        OrMemory::Memory => OrMemory::Memory,
    }
}

/// The fault of constants or bounds, as one of a model.
fn constants_fault(fault: ConstantsFault) -> ModelFault
    ensures { result ≡ constants_fault fault }
{
    match fault {
        ConstantsFault::Typing(fault) => ModelFault::Typing(fault),
        ConstantsFault::Term(fault) => {
            let place = fault.place;
            match fault.rule {
                UnfoldRule::Index => {
                    let rule = TypingRule::OutsideCarrier;
                    ModelFault::Typing(TypingFault { rule, place })
                }
                UnfoldRule::Operators | UnfoldRule::Depth | UnfoldRule::Values => {
                    let rule = TextRule::LimitExceeded;
                    ModelFault::Text(TextFault { rule, place })
                }
            }
        }
    }
}

/// Why constants or bounds aren't settled, as an error of a model.
pub(crate) fn of_constants(error: ConstantsError) -> ModelError
    ensures { raised (λ fault above. above ≡ constants_fault fault) error result }
{
    match error {
        OrMemory::Refused(fault) => OrMemory::Refused(constants_fault(fault)),
        OrMemory::Memory => OrMemory::Memory,
    }
}
