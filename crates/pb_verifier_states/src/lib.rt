//! Abstract states of code: kinds and intervals of operands and slots, what an instruction takes of
//! them and leaves, the rules that it breaks, and the least state that covers two. The definitions
//! of the transfer function are those of `pb_bytecode_program`; the code here computes its parts,
//! and the laws say that the join is a least upper bound.
#![tactic(auto)]

pub mod flow_error;
pub mod laws;
pub mod rule;
pub mod state;
pub mod value;

pub use flow_error::FlowError;
pub use rule::AcceptanceRule;
pub use state::AbstractState;
