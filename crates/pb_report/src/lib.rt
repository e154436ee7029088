//! What is printed of a solved module, streamed to a sink through a buffer of fixed size: reports,
//! games, certificates, solutions, and why the initial instance is true or false.
#![tactic(auto)]

pub mod answer;
pub mod buffer;
pub mod certificate_text;
pub mod cut_calls;
mod cuts;
pub mod evidence_text;
pub mod game_text;
mod instance_marks;
pub mod instance_name;
pub mod module_evidence;
pub mod solution_text;
mod tree_truth;
pub mod vertex_line;

pub use answer::{Answer, report};
pub use buffer::{TextBuffer, TextWriter, WriteError};
pub use evidence_text::PlacedExplanation;
pub use module_evidence::{Explanation, evidence_of, evidence_of_rows};
