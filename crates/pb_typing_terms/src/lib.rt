//! Kinds and intervals of data terms in which no quantifier may stand: the typed tree of a term, or
//! a rule that fails and where.
#![tactic(auto)]

pub mod term;

pub use term::check_term;
