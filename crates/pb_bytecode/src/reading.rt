//! Reading the fields of a module, each from the front of the bytes that are left.

mod carriers;
mod equations;
mod instructions;
mod names;
mod numbers;

pub(crate) use equations::{equations_at, initial_at};
pub(crate) use names::{sizes_of, sorts_at};
pub(crate) use numbers::{fault, truncated, u8_at};
