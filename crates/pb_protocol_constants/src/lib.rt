//! Settles what the text of a model says beside its protocol: constants become definitions that
//! stand for written numbers, and sorts that are declared by bounds get ranges.
//!
//! The value of a constant is what its term means where nothing but the constants before it is
//! declared: no sort, no state variable and no other definition. Rules of names and kinds, and the
//! unfolding of terms, are those of protocols: constants are a protocol of definitions alone.
#![tactic(auto)]

mod bound;
mod fault;
mod hidden;
mod number;
mod settled;
mod valued;

pub use fault::{ConstantsError, ConstantsFault};
pub use settled::settle;
