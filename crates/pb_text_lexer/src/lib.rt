//! The tokens of a text, given one at a time, and the steps that a reader of any grammar is made
//! of.
//!
//! `specs/Lexing.antt` says how a text is cut into tokens. `specs/Grammar.antt` has the words in
//! which a grammar is written, as relations without position or lookahead. `specs/Steps.antt` has
//! the same words as functions, which compute; `proofs/` shows, once for each word, that the
//! functions meet the relations. The crates above write their productions in these words alone.
#![tactic(auto)]

pub mod bytes;
pub mod digits;
pub mod fault;
pub mod input;
pub mod kind;
pub mod language;
pub mod lexer;
mod model_piece;
pub mod piece;
pub mod range_line;
pub mod ranges;
pub mod token;
pub mod word;
