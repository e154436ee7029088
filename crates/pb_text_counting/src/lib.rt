//! Counting in data terms, `count i: S . p`: for how many values a condition is true.
//!
//! It stands between the tree of texts, which has no node for it, and the readers of terms, so that
//! the tree and all that is made of it stay as they are: texts of equations don't count.
#![tactic(auto)]

mod counting;

pub use counting::{counted, is_counting};
