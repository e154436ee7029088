//! Rows for a game of the instances of a verified module that are nearest to its initial one. What
//! a tree calls and has no row yet is the frontier. [`rows_around`] gives the rows with a leaf at
//! each instance of the frontier, so that a game can be made of them before everything is explored:
//! a truth value that comes out though the frontier has the other one holds whatever lies behind
//! it.
#![tactic(auto)]

mod around;

pub use around::rows_around;
pub use pb_exploration_reached::Nearby;
