//! What all crates share: the one form of an error, the limits of pbsolve, the bytes of names, and
//! what lets a value go beside an error.
#![tactic(auto)]

mod limits;
mod names;
mod or_memory;
mod pair;

pub use limits::{
    MAX_BRACKETS, MAX_DEPTH, MAX_ENUMERATORS, MAX_EQUATIONS, MAX_INPUT_BYTES, MAX_INSTANCES,
    MAX_INSTRUCTIONS, MAX_LOOP_SLOTS, MAX_LOOPS, MAX_NAME_BYTES, MAX_OPERANDS, MAX_OPERATORS,
    MAX_PARAMETERS, MAX_PRIORITIES, MAX_STEPS, MAX_STRUCTS, MAX_TOKENS, MAX_VERTICES,
};
pub use names::{is_letter, is_name_byte};
pub use or_memory::{Fault, OrMemory};
pub use pair::both;
