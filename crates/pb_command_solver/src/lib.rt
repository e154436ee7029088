//! From a verified module to its answer: its reached instances are explored, their game is built
//! and solved, and what the winners say is the truth of the instances in the nested solution of the
//! module's equations. It alone calls the solvers.
#![tactic(auto)]

mod answer;
pub mod built_module;
mod context;
mod early;
pub mod explanation;
pub mod options;
mod part;
mod progress;
pub mod solved_module;
mod solver;
mod workers;

pub use answer::answer_module;
pub use built_module::{BuiltModule, build_explored, build_module};
pub use context::Context;
pub use early::{Early, answer_early};
pub use explanation::explain_module;
pub use options::SolveOptions;
pub use pb_game_of_trees::Crew;
pub use progress::{Phase, Progress};
pub use solved_module::{SolvedModule, solve_module};
pub use solver::solve;
pub use workers::{MAX_WORKERS, Workers};
