//! Reads data terms, and what formulas have in common with them: names, variables, quantifiers and
//! arguments.
//!
//! `specs/Grammar.antt` is the grammar, a relation between tokens and what they say.
//! `specs/Reading.antt` is the same as functions, which the code computes; no clause that speaks of
//! texts cites them. `proofs/` shows that the functions meet the relations.
#![tactic(auto)]

mod chain;
mod instance;
mod level;
pub mod node;
pub mod operator;
mod primary;
pub mod term;
pub mod variable;
