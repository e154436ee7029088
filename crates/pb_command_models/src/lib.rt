//! What commands do with a protocol and its properties: the text of one, the verdicts, and why.
#![tactic(auto)]

mod check;
mod decision;
mod denial;
mod explained;
mod explained_finding;
mod finding;
mod finding_lines;
mod joint;
mod laws;
mod models;
mod negation;
mod options;
mod outcome;
mod property_faults;
mod property_module;
mod property_text;
mod reached_steps;
mod step_finding;
mod step_lines;
mod symmetry;
mod told;
mod why;

pub use check::check_text;
pub use finding::{Finding, PropertyFinding};
pub use laws::told_calls_are_steps;
pub use models::translate_text;
pub use options::WhyOptions;
pub use step_finding::StepFinding;
pub use why::why_text;
