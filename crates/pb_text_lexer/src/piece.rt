//! What stands at the front of a text: white space, a comment, a token, or none of these.

ghost use Rattle.std.specs.Prelude.{◌≡◌};
ghost use Rattle.std.specs.Str.Parse.{AllDigits};
ghost use Rattle.pb_text_lexer.specs.Lexing as spec;

use crate::bytes::{digits_len, is_blank, line_len, name_len};
use crate::digits::value_within;
use crate::kind::Kind;
use crate::range_line::is_wrong;
use crate::word::word_kind;
use pb_base::is_letter;
use pb_text_tree::Place;

/// What stands at the front of a text, with its length in bytes.
#[derive(Clone, Copy)]
pub enum Piece {
    /// White space, or a comment.
    Blank(usize),
    /// A token, whose kind isn't one of the last.
    Token(Kind, usize),
    /// The end of the text, or what is no token.
    Stop(Kind),
}

/// The largest number that a text may write, 2^62.
pub const LARGEST_NUMBER: u64 = 4_611_686_018_427_387_904;

/// The symbols of two bytes.
const PAIRS: [(u8, u8, Kind); 7] = [
    (b'=', b'=', Kind::Equal),
    (b'!', b'=', Kind::NotEqual),
    (b'=', b'>', Kind::Implies),
    (b'<', b'=', Kind::LessOrEqual),
    (b'>', b'=', Kind::GreaterOrEqual),
    (b'&', b'&', Kind::And),
    (b'|', b'|', Kind::Or),
];

/// The symbol of one byte, or else no token (P01).
#[inline(always)]
fn one_byte_symbol(byte: u8) -> Piece
    ensures { result ≡ spec.one_byte_among spec.one_byte_symbols byte }
{
    match byte {
        b'(' => Piece::Token(Kind::Open, 1),
        b')' => Piece::Token(Kind::Close, 1),
        b',' => Piece::Token(Kind::Comma, 1),
        b';' => Piece::Token(Kind::Semicolon, 1),
        b':' => Piece::Token(Kind::Colon, 1),
        b'.' => Piece::Token(Kind::Period, 1),
        b'=' => Piece::Token(Kind::Is, 1),
        b'!' => Piece::Token(Kind::Not, 1),
        b'|' => Piece::Token(Kind::Bar, 1),
        b'<' => Piece::Token(Kind::Less, 1),
        b'>' => Piece::Token(Kind::Greater, 1),
        b'+' => Piece::Token(Kind::Plus, 1),
        b'-' => Piece::Token(Kind::Minus, 1),
        b'*' => Piece::Token(Kind::Times, 1),
        b'?' => Piece::Token(Kind::Question, 1),
        _ => Piece::Stop(Kind::Unknown),
    }
}

/// The symbol of two bytes that a table gives, or else the symbol of the first of them.
#[inline(always)]
fn two_byte_symbol(table: &[(u8, u8, Kind)], first: u8, second: u8) -> Piece
    ensures { result ≡ spec.two_bytes_among table.now first second }
{
    for (a, b, kind) in table {
        if first == *a && second == *b {
            return Piece::Token(*kind, 2);
        }
    }
    one_byte_symbol(first)
}

/// The longest symbol that a byte begins, with the byte behind it if there is one.
#[tactic(auto, unfolding(crate::specs::Lexing::symbol))]
#[inline(always)]
fn symbol(first: u8, second: Option<u8>) -> Piece
    ensures { result ≡ spec.symbol first second }
{
    match second {
        None => one_byte_symbol(first),
        Some(second) => two_byte_symbol(&PAIRS, first, second),
    }
}

/// A number, by its digits, unless it is above the largest (P03).
#[tactic(auto, unfolding(crate::specs::Lexing::number))]
fn number(digits: &[u8]) -> Piece
    requires { AllDigits 10 digits.now }
    ensures { result ≡ spec.number digits.now }
{
    match value_within(digits, LARGEST_NUMBER) {
        None => Piece::Stop(Kind::LargeNumber),
        Some(_) => Piece::Token(Kind::Number, digits.len()),
    }
}

/// What stands at a place, at the front of the bytes from there on.
#[tactic(auto, unfolding(crate::specs::Lexing::piece))]
#[inline(always)]
pub fn front_piece(place: Place, bytes: &[u8]) -> Piece
    ensures { result ≡ spec.piece place bytes.now }
{
    if bytes.is_empty() {
        return Piece::Stop(Kind::End);
    }
    let first = bytes[0];
    let rest = &bytes[1..];
    if is_blank(first) {
        return Piece::Blank(1);
    }
    if first == b'%' {
        if place.column == 1 && is_wrong(rest) {
            return Piece::Stop(Kind::RangeLine);
        }
        return Piece::Blank(1 + line_len(rest));
    }
    if is_letter(first) {
        let len = 1 + name_len(rest);
        return Piece::Token(word_kind(&bytes[..len]), len);
    }
    if first == b'0' {
        return Piece::Token(Kind::Number, 1);
    }
    if first.is_ascii_digit() {
        return number(&bytes[..1 + digits_len(rest)]);
    }
    symbol(first, rest.first().copied())
}
