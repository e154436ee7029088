//! The verifier of modules. Code is accepted where it keeps the rules by position, states counts
//! that are large enough, and has a table of abstract states with which each instruction agrees;
//! one pass from the first place to the last finds the least such table. What is accepted never
//! faults and ends within the stated counts, and no module that is accepted is refused.
#![tactic(auto)]

mod equation;
mod equation_in_module;
pub mod laws;
mod module_tables;
mod open_loops;
mod pass;
mod table;
pub mod verification;
pub mod verified;
pub mod verify_error;
mod visit;

pub use pb_verifier_states::AcceptanceRule;
pub use verification::{verify, verify_laid_out};
pub use verified::Verified;
pub use verify_error::{CodeFault, VerifyError};
