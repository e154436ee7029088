//! How a module is solved.

use crate::workers::Workers;
use pb_game::Solver;

/// How a module is solved: by so many workers, which explore it, build its game, check what solves
/// it and, where the solver is lifting, lift it too. What the answer is depends on neither.
#[derive(Clone, Copy, PartialEq, Eq)]
pub struct SolveOptions {
    pub workers: Workers,
    pub solver: Solver,
}
