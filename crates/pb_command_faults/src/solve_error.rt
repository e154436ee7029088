//! Why a command has no answer, or none that was written.
ghost use Rattle.std.specs.Prelude.{◌≡◌};
ghost use Rattle.pb_command_faults.specs.declared.solve_error.SolveError.TheVariants.{Memory};
ghost use Rattle.pb_command_faults.specs.Errors.{joins_into, write_failure};

use crate::SolveFault;
use pb_base::OrMemory;
use pb_report::WriteError;
use pb_sorts::E02;
use std::alloc::AllocError;
use thiserror::Error;

/// Why there is no answer, or none that was written. `?` joins the errors of all layers, and that
/// of writing.
#[derive(Clone, Copy, Debug, PartialEq, Eq, Error)]
pub enum SolveError {
    /// The input is refused.
    #[error(transparent)]
    Refused(SolveFault),
    /// A request for memory was refused.
    #[error("no memory")]
    Memory,
    /// What was to be written could not be written whole.
    #[error(transparent)]
    Write(E02),
}

impl From<AllocError> for SolveError {
    ghost from_gives = { λ _ made. made ≡ Memory };

    fn from(_: AllocError) -> SolveError {
        SolveError::Memory
    }
}

impl<F> From<OrMemory<F>> for SolveError
where
    SolveFault: From<F>,
{
    ghost from_gives = { λ error made. joins_into ⟦<SolveFault as From<F>>⟧.from_gives error made };

    fn from(error: OrMemory<F>) -> SolveError {
        match error {
            OrMemory::Refused(fault) => SolveError::Refused(SolveFault::from(fault)),
            OrMemory::Memory => SolveError::Memory,
        }
    }
}

impl From<WriteError> for SolveError {
    ghost from_gives = { λ error made. made ≡ write_failure error };

    fn from(error: WriteError) -> SolveError {
        match error {
            WriteError::Refused(failed) => SolveError::Write(failed),
            WriteError::Memory => SolveError::Memory,
        }
    }
}
