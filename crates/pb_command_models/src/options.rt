//! How the evidence of a property is found and written.

use pb_command_solver::Workers;

/// Evidence is found by so many workers, and shows a verdict by lines of instances, or else in the
/// model's words.
#[derive(Clone, Copy, PartialEq, Eq)]
pub struct WhyOptions {
    pub workers: Workers,
    pub lines: bool,
}
