//! The solver's calls, and the whole program over readers and writers.
#![tactic(auto)]

mod ended;
mod files;
mod program;
mod run_error;
mod streams;

pub use pb_base::MAX_INPUT_BYTES;
pub use pb_command_faults::{ErrorLine, Line, ProgramFault, SolveError, SolveFault};
pub use pb_command_line::{Checking, Status};
pub use pb_command_models::{
    Finding, PropertyFinding, StepFinding, WhyOptions, check_text, told_calls_are_steps,
    translate_text, why_text,
};
pub use pb_command_modules::{bytes_spell_one_module, list_code, solve_code, verify_code};
pub use pb_command_solver::{Context, SolveOptions, Workers};
pub use pb_command_texts::{
    ExplainOptions, ShortInput, TextInput, certificate_of, compile_text, explain_text, game_of,
    solution_of, solve_text, texts_keep_their_answers,
};
pub use program::{run, tell_fault};
pub use streams::Streams;
