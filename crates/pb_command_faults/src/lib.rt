//! What is told of an input that is refused: the faults of all layers as one type, and their lines.
#![tactic(auto)]

pub mod error_line;
pub mod fault;
mod line;
pub mod property_fault;
mod solve_error;
mod solve_fault;

pub use error_line::ErrorLine;
pub use fault::ProgramFault;
pub use line::Line;
pub use property_fault::{PropertyExcess, PropertyFault};
pub use solve_error::SolveError;
pub use solve_fault::SolveFault;
