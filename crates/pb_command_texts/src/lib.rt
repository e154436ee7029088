//! What commands do with a text of equations: its module, the answer, and why.
#![tactic(auto)]

mod compile;
mod explained;
mod laws;
mod options;
mod short_input;
mod solve;
mod text_input;

pub use compile::{compile_text, verified, verified_laid_out};
pub use explained::{ExplainedText, explained_typed};
pub use laws::texts_keep_their_answers;
pub use options::{ExplainOptions, solve_options};
pub use short_input::ShortInput;
pub use solve::{certificate_of, explain_text, game_of, solution_of, solve_text};
pub use text_input::TextInput;
