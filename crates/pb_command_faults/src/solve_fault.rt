//! What is wrong with the input of a command, whichever layer finds it.
ghost use Rattle.std.specs.Prelude.{◌≡◌};
ghost use Rattle.pb_command_faults.specs.declared.solve_fault.SolveFault.TheVariants.{Acceptance, Limit};
ghost use Rattle.pb_command_faults.specs.declared.solve_fault.SolveFault.TheVariants.{Module, Text, Typing};
ghost use Rattle.pb_command_faults.specs.declared.solve_fault.SolveFault.TheVariants as solve_fault;

use crate::{ErrorLine, Line, ProgramFault, PropertyFault};
use pb_assembler_measures::Excess;
use pb_base::Fault;
use pb_bytecode::ModuleFault;
use pb_game_of_trees::TooManyVertices;
use pb_model_faults::ModelFault;
use pb_text::TextFault;
use pb_typing_declarations::TypingFault;
use pb_verifier::CodeFault;
use thiserror::Error;

/// Why a command refuses its input.
#[derive(Clone, Copy, Debug, PartialEq, Eq, Error)]
pub enum SolveFault {
    /// `P01` to `P05`: the text is not in the grammar, or passes a limit of it.
    #[error("the text is not in the grammar")]
    Text(TextFault),
    /// `T01` to `T13`: the text is in the grammar, and breaks a rule of typing.
    #[error("the text breaks a rule of typing")]
    Typing(TypingFault),
    /// `C01` to `C06`: the text is well typed, and the code of an equation exceeds a limit.
    #[error("{0}")]
    Limit(Excess),
    /// `B01` to `B07`: the bytes spell no module.
    #[error("the bytes are no module")]
    Module(ModuleFault),
    /// `V01` to `V16`: the code of the module that the bytes spell is not accepted.
    #[error("the code is not accepted")]
    Acceptance(CodeFault),
    /// `G01`: the game has more than 2^24 vertices.
    #[error("too many vertices")]
    TooManyVertices,
    /// `C01` to `C06`, `G01`: a property of the model is too large.
    #[error("a property is too large")]
    Property(PropertyFault),
    /// `U01`: the model has no property of the name.
    #[error("no such property")]
    NoProperty,
}

impl Fault for SolveFault {}

impl From<TextFault> for SolveFault {
    ghost from_gives = { λ fault made. made ≡ Text fault };

    fn from(fault: TextFault) -> SolveFault {
        SolveFault::Text(fault)
    }
}

impl From<TypingFault> for SolveFault {
    ghost from_gives = { λ fault made. made ≡ Typing fault };

    fn from(fault: TypingFault) -> SolveFault {
        SolveFault::Typing(fault)
    }
}

impl From<ModelFault> for SolveFault {
    ghost use Rattle.pb_command_faults.specs.Errors.{fault_of_model};

    ghost from_gives = { λ fault made. made ≡ fault_of_model fault };

    fn from(fault: ModelFault) -> SolveFault {
        match fault {
            ModelFault::Text(fault) => SolveFault::Text(fault),
            ModelFault::Typing(fault) => SolveFault::Typing(fault),
            ModelFault::NoProperty => SolveFault::NoProperty,
        }
    }
}

impl From<Excess> for SolveFault {
    ghost from_gives = { λ excess made. made ≡ Limit excess };

    fn from(excess: Excess) -> SolveFault {
        SolveFault::Limit(excess)
    }
}

impl From<ModuleFault> for SolveFault {
    ghost from_gives = { λ fault made. made ≡ Module fault };

    fn from(fault: ModuleFault) -> SolveFault {
        SolveFault::Module(fault)
    }
}

impl From<CodeFault> for SolveFault {
    ghost from_gives = { λ fault made. made ≡ Acceptance fault };

    fn from(fault: CodeFault) -> SolveFault {
        SolveFault::Acceptance(fault)
    }
}

impl From<TooManyVertices> for SolveFault {
    ghost from_gives = { λ _ made. made ≡ solve_fault.TooManyVertices };

    fn from(_: TooManyVertices) -> SolveFault {
        SolveFault::TooManyVertices
    }
}

impl From<PropertyFault> for SolveFault {
    ghost from_gives = { λ fault made. made ≡ solve_fault.Property fault };

    fn from(fault: PropertyFault) -> SolveFault {
        SolveFault::Property(fault)
    }
}

impl ErrorLine for SolveFault {
    ghost use Rattle.pb_command_faults.specs.Errors.{fault_line};

    ghost line = { fault_line };

    fn error_line(&self) -> Line {
        match self {
            SolveFault::Text(fault) => fault.error_line(),
            SolveFault::Typing(fault) => fault.error_line(),
            SolveFault::Limit(excess) => excess.error_line(),
            SolveFault::Module(fault) => fault.error_line(),
            SolveFault::Acceptance(fault) => fault.error_line(),
            SolveFault::TooManyVertices => Line::of("G01\n"),
            SolveFault::Property(fault) => fault.error_line(),
            SolveFault::NoProperty => Line::of(ProgramFault::U01.line()),
        }
    }
}
