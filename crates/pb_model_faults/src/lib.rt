//! Why a model has no text of the property that is asked for.
#![tactic(auto)]

ghost use Rattle.std.specs.Prelude.{◌≡◌};

use pb_base::{Fault, OrMemory};
use pb_text::TextFault;
use pb_typing_declarations::TypingFault;
use thiserror::Error;

/// What is wrong with a model, or with the name of a property.
#[derive(Clone, Copy, Debug, Error)]
pub enum ModelFault {
    /// The bytes are no model in the grammar, or pass a limit of it.
    #[error("the model is not in the grammar")]
    Text(TextFault),
    /// The model is in the grammar, and breaks a rule of typing.
    #[error("the model breaks a rule of typing")]
    Typing(TypingFault),
    /// The model has no property of the name.
    #[error("no such property")]
    NoProperty,
}

impl Fault for ModelFault {}

/// Why there is no text: the model is refused, or memory is.
pub type ModelError = OrMemory<ModelFault>;

impl From<TextFault> for ModelFault {
    ghost use Rattle.pb_model_faults.specs.declared.ModelFault.TheVariants.{Text};

    ghost from_gives = { λ fault above. above ≡ Text fault };

    fn from(fault: TextFault) -> ModelFault {
        ModelFault::Text(fault)
    }
}

impl From<TypingFault> for ModelFault {
    ghost use Rattle.pb_model_faults.specs.declared.ModelFault.TheVariants.{Typing};

    ghost from_gives = { λ fault above. above ≡ Typing fault };

    fn from(fault: TypingFault) -> ModelFault {
        ModelFault::Typing(fault)
    }
}
