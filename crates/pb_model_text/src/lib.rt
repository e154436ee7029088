//! Reads the text of a model and its properties into its syntax tree.
//!
//! `specs/Grammar.antt` and `specs/Models.antt` are the grammar, a relation between tokens and what
//! they say. `specs/Reading.antt` and `specs/ModelReading.antt` are the same as a function, which
//! the code computes; no public clause cites it. `specs/Parsing.antt` has what `parse_model`
//! ensures. Enumerators, variables and data terms are read as in texts, by the same functions, and
//! errors have the numbers of texts.
#![tactic(auto)]

mod assignment;
mod atom;
mod constant;
mod definition;
mod fixpoint;
mod formula;
mod instances;
pub mod laws;
mod modality;
mod model;
mod name_ref;
mod node;
mod pattern;
mod processes;
mod scope;
mod sort;
mod state;
mod step;
mod step_set;
pub mod text;
mod word;
mod worded;

pub use text::parse_model;
