//! Symbols and words of models that texts don't have: `[`, `]`, `->`, `:=`, six reserved words, and
//! `count` where it counts.

ghost use Rattle.std.specs.Prelude.{◌≡◌};
ghost use Rattle.pb_text_lexer.specs.Lexing as lexing;
ghost use Rattle.pb_text_lexer.specs.ModelPieces as spec;

use crate::bytes::{blanks_len, name_len};
use crate::kind::{Kind, same_kind};
use crate::language::Language;
use crate::piece::{Piece, front_piece};
use crate::word::{kind_among, word_kind};
use pb_base::is_letter;
use pb_text_tree::Place;

/// The reserved words of models alone.
const MODEL_WORDS: [(&str, Kind); 6] = [
    ("model", Kind::Model),
    ("state", Kind::State),
    ("step", Kind::Step),
    ("property", Kind::Property),
    ("define", Kind::Define),
    ("skip", Kind::Skip),
];

/// A word that is reserved in models alone.
#[tactic(auto, unfolding(crate::specs::ModelPieces::model_word))]
fn model_word(word: &[u8]) -> Option<Piece>
    ensures { result ≡ spec.model_word word.now }
{
    match kind_among(&MODEL_WORDS, word) {
        Kind::Name => None,
        kind => Some(Piece::Token(kind, word.len())),
    }
}

/// Whether a word may be a name in models: it isn't reserved.
fn is_unreserved(word: &[u8]) -> bool
    ensures { result ≡ spec.is_unreserved word.now }
{
    same_kind(word_kind(word), Kind::Name) && same_kind(kind_among(&MODEL_WORDS, word), Kind::Name)
}

/// The word at the front, if there is one.
fn front_word(bytes: &[u8]) -> &[u8]
    ensures { result.now ≡ spec.front_word bytes.now }
{
    if bytes.is_empty() || !is_letter(bytes[0]) {
        return &[];
    }
    &bytes[..1 + name_len(&bytes[1..])]
}

/// The bytes behind white space.
fn behind_blanks(bytes: &[u8]) -> &[u8]
    ensures { result.now ≡ spec.behind_blanks bytes.now }
{
    &bytes[blanks_len(bytes)..]
}

/// Whether `count` counts with these bytes behind it: white space alone, and then a name that is no
/// word between two operands.
#[inline(never)]
fn counts(bytes: &[u8]) -> bool
    ensures { result ≡ spec.counts bytes.now }
{
    let word = front_word(behind_blanks(bytes));
    if word.is_empty() || word == b"until".as_slice() || word == b"leads_to".as_slice() {
        return false;
    }
    is_unreserved(word)
}

/// A word that models alone have, and the bytes behind it.
#[tactic(auto, unfolding(crate::specs::ModelPieces::word_piece))]
fn word_piece(word: &[u8], bytes: &[u8]) -> Option<Piece>
    ensures { result ≡ spec.word_piece word.now bytes.now }
{
    if word == b"count".as_slice() && counts(bytes) {
        return Some(Piece::Token(Kind::Count, word.len()));
    }
    model_word(word)
}

/// A symbol of two bytes that models alone have.
fn model_pair(first: u8, second: Option<u8>) -> Option<Piece>
    ensures { result ≡ spec.model_pair first second }
{
    match (first, second) {
        (b'-', Some(b'>')) => Some(Piece::Token(Kind::Arrow, 2)),
        (b':', Some(b'=')) => Some(Piece::Token(Kind::Assign, 2)),
        _ => None,
    }
}

/// What stands at the front that models alone have.
#[tactic(auto, unfolding(crate::specs::ModelPieces::model_piece))]
fn model_piece(bytes: &[u8]) -> Option<Piece>
    ensures { result ≡ spec.model_piece bytes.now }
{
    if bytes.is_empty() {
        return None;
    }
    let first = bytes[0];
    let rest = &bytes[1..];
    if first == b'[' {
        return Some(Piece::Token(Kind::OpenSquare, 1));
    }
    if first == b']' {
        return Some(Piece::Token(Kind::CloseSquare, 1));
    }
    if is_letter(first) {
        let length = 1 + name_len(rest);
        return word_piece(&bytes[..length], &bytes[length..]);
    }
    model_pair(first, rest.first().copied())
}

/// What stands at a place of a text of the language, at the front of the bytes from there on.
#[inline(always)]
pub fn piece_in(language: Language, place: Place, bytes: &[u8]) -> Piece
    ensures { result ≡ lexing.piece_in language place bytes.now }
{
    match language {
        Language::Text => front_piece(place, bytes),
        Language::Model => match model_piece(bytes) {
            Some(piece) => piece,
            None => front_piece(place, bytes),
        },
    }
}
