//! How texts are solved, and how evidence is found and written.

use pb_command_line::Solving;
use pb_command_solver::{SolveOptions, Workers};

/// Evidence is found by so many workers, and tells the places of calls or doesn't.
#[derive(Clone, Copy, PartialEq, Eq)]
pub struct ExplainOptions {
    pub workers: Workers,
    pub places: bool,
}

/// How is solved.
pub fn solve_options(options: Solving) -> SolveOptions {
    SolveOptions {
        workers: Workers {
            count: options.workers,
        },
        solver: options.solver,
    }
}
