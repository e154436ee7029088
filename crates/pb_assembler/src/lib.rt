//! The compiler, from normal forms to modules. What the code of each equation takes of the
//! machine's limits is counted before any code is made (`pb_assembler_measures`); then code with
//! labels is made piece by piece, and its targets are resolved at the end. `specs/Emitted.antt`
//! says what it is to have emitted a piece.
#![tactic(auto)]

mod call;
mod code;
pub mod compiler;
mod emission;
mod equation;
mod formula;
mod initial;
pub mod laws;
mod name;
mod operator;
mod sort;
mod term;
mod test;

pub use compiler::compile;
pub use pb_assembler_builder::{Builder, Jump, Label};
pub use pb_assembler_measures::{CompileError, Excess, compile_error};
pub use pb_bytecode::Limit;
