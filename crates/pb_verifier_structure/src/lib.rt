//! What code has to keep before its operands are looked at: the rules by position, and the static
//! counts of steps and tokens. Loops pair by position like brackets, jumps lead to later places of
//! the same body, and instructions name slots and equations that are there.
#![tactic(auto)]

mod bodies;
pub mod check;
pub mod counts;
pub mod equation_code;
pub mod position_fault;

pub use check::check_structure;
pub use counts::{SATURATED, StaticCounts, static_counts};
pub use equation_code::EquationCode;
pub use position_fault::{PositionFault, StructureError};
