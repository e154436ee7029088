//! Code in the making: instructions whose jumps name labels, which are resolved at the end.
//! `specs/Draft.antt` says what a draft is and what it is resolved to.
#![tactic(auto)]

mod builder;
mod instruction;

pub use builder::{Builder, Label};
pub use instruction::Jump;
