//! Representatives of a protocol's states, by exchanges of neighbouring elements of a sort.
//!
//! Of instances that differ by a permutation of like elements one is explored (Ip and Dill 1996).
//! An instance's number is that of its equation and of its state, and a permutation is computed on
//! the digits of the latter. Which one is applied is not proved to be the best: it is one.
#![tactic(auto)]

mod array;
mod axis;
mod digit;
mod exchange;
mod exchanges;
mod laws;
mod tables;

pub use exchanges::{Exchanges, exchanges_of};
pub use laws::{neighbours_are_symmetries, sequences_are_symmetries};
