//! Prints texts.
//!
//! A text is printed with brackets only where the grammar needs them to be read as the same tree:
//! `specs/Words.antt` says what is written. What is printed of a text that was read is read back as
//! that text but for places, and `specs/Unplaced.antt` says what that is.
#![tactic(auto)]

mod comment;
mod formula;
mod laws;
mod level;
mod printing;
mod term;
mod text;
mod variables;
mod writer;

pub use comment::print_with_comment;
pub use laws::{
    commented_text_is_read_back, printed_text_is_read_back, printed_words_are_read_back,
    sayable_text_is_read_back, worked_comment,
};
pub use pb_text_tree::copy_term as copy;
pub use printing::print;
