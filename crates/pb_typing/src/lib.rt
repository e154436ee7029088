//! Kinds, intervals and positivity: whether a text that was read may be solved, and if not, a rule
//! that fails and where; and the typed tree of a text that passes.
#![tactic(auto)]

mod equation;
mod formula;
mod initial;
mod instance;
mod joined;
mod polarity;
mod spec;
mod typed;
mod value;

pub use polarity::{Polarity, operand_polarity};
pub use spec::{check, check_counting};
pub use typed::Typed;
