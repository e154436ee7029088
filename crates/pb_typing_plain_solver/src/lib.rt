//! The plain solver of parameterised Boolean equation systems. It computes the nested fixpoint
//! solution (Groote and Willemse 2005) equation by equation, over the sets of all instances.
#![tactic(auto)]

mod set;
mod solver;
mod turn;

pub use solver::solve;
