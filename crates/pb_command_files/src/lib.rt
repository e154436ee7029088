//! Files by their names, lines with the label of their file, and a sink in memory that keeps them
//! until all are known.
#![tactic(auto)]

pub mod buffer;
mod labels;
pub mod named;

pub use buffer::Buffer;
pub use labels::{label, push_labelled};
pub use named::{NamedFiles, SystemFiles};
