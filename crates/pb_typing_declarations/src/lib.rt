//! What a text declares: its sorts with their ranges, enumerators and recognisers, and predicate
//! variables with their parameters. It stands below whatever reads terms and formulas, which look
//! names up here, and has the errors of all typing rules.
#![tactic(auto)]

mod chain;
mod declarations;
mod definition;
mod ends;
mod entry;
mod fault;
mod laws;
mod range;
mod sorts;
mod table;
mod tables;
mod variables;

pub use declarations::Declarations;
pub use fault::{TypeError, TypingFault, TypingRule, require};
pub use laws::{
    declared_sorts_have_ends, no_faults_where_declared, no_faults_where_variables,
    shapes_have_carriers,
};
pub use sorts::{Enumerator, Integers};
