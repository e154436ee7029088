//! Reads formulas and declarations of sorts, the parts of a text below equations and whole texts.
//!
//! `specs/Grammar.antt` is their grammar, a relation between tokens and what they say.
//! `specs/Reading.antt` is the same as a function, which the code computes.
#![tactic(auto)]

pub mod formula;
pub mod next;
pub mod sort;
