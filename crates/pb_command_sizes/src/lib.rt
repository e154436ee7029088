//! What a command tells of the size of a model that is given by its bytes.
#![tactic(auto)]

mod sizes;

pub use sizes::size_text;
