//! Reads the text of a parameterised Boolean equation system into its syntax tree.
//!
//! `specs/Grammar.antt` is the grammar, a relation between tokens and what they say; its formulas
//! and sorts are those of `pb_text_formulas`. `specs/Reading.antt` is the same as a function, which
//! the code computes; no public clause of `parse` cites it. `specs/Parsing.antt` has what `parse`
//! ensures.
#![tactic(auto)]

pub mod error;
pub mod laws;
pub mod system;
pub mod text;

pub use error::{TextError, TextFault, TextRule};
pub use text::parse;
