//! The command line: what its words ask of the program.
#![tactic(auto)]

pub mod command;
mod line;
pub mod options;
pub mod page;
mod read;
pub mod request;
mod status;
mod usages;
mod words;

pub use command::Command;
pub use options::{Checking, Explaining, Exploring, Showing, Solving, Translating};
pub use page::Page;
pub use request::{Request, Task};
pub use status::Status;
pub use words::{Usage, WordsError, request_of};
