//! What flows from an instruction: where control goes, and with which abstract states. The
//! definition of the transfer function is that of `pb_bytecode_program`; the code here computes it,
//! on the states of `pb_verifier_states`, and the law says that the rules are monotone.
#![tactic(auto)]

pub mod edges;
pub mod flow;
mod interval;
pub mod laws;

pub use edges::Edges;
