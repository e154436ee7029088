//! Gives the tokens of a text one at a time, as they are asked for.

ghost use Rattle.std.specs.Prelude.{◌≡◌, ◌+◌, ◌≤◌, ◌<◌, ◌^◌, length};
ghost use Rattle.std.specs.Str.{IsAscii};
ghost use Rattle.pb_text_lexer.specs.Lexing as spec;
ghost use Rattle.pb_text_lexer.specs.Remaining.{HasDigits, HasSpelling, IsWithin};
ghost use Rattle.pb_text_lexer.specs.Remaining.{remaining, tokens_from};

use crate::language::Language;
use crate::model_piece::piece_in;
use crate::piece::Piece;
use crate::token::Token;
use pb_text_tree::Place;

/// A token of a text, and what follows it.
#[derive(Clone, Copy)]
pub struct Lexer<'a> {
    pub token: Token<'a>,
    pub rest: &'a [u8],
    /// Where the rest stands.
    pub place: Place,
}

/// The place behind the bytes.
#[inline(always)]
pub fn past(place: Place, bytes: &[u8]) -> Place
    requires { IsWithin place bytes.now }
    ensures value { result ≡ spec.past place bytes.now }
    ensures line { result.line ≤ place.line + length bytes.now }
    ensures column { result.column ≤ place.column + length bytes.now }
{
    let mut place = place;
    for byte in bytes {
        if *byte == b'\n' {
            place.line += 1;
            place.column = 1;
        } else {
            place.column += 1;
        }
    }
    place
}

/// Bytes of a token as text.
#[inline(always)]
pub fn text_of(bytes: &[u8]) -> &str
    requires { IsAscii bytes.now }
    ensures { result.now ≡ bytes.now }
{
    match str::from_utf8(bytes) {
        Ok(text) => text,
        Err(_) => unreachable!(),
    }
}

/// The first token of the bytes, which stand at a place of a text of the language, and what follows
/// it.
pub fn first_token<'a>(language: Language, bytes: &'a [u8], place: Place) -> Lexer<'a>
    requires { IsWithin place bytes.now }
    ensures gives { remaining language result ≡ tokens_from language bytes.now 0 place }
    ensures within { IsWithin result.place result.rest.now }
    ensures number { HasDigits result.token }
    ensures spelled { HasSpelling result.token }
    ensures ascii { IsAscii result.token.text.now }
{
    let mut rest = bytes;
    let mut place = place;
    'pieces: loop {
        match piece_in(language, place, rest) {
            Piece::Blank(len) => {
                let (text, after) = rest.split_at(len);
                place = past(place, text);
                rest = after;
            }
            Piece::Token(kind, len) => {
                let (text, after) = rest.split_at(len);
                let token = Token { kind, text, place };
                // No token breaks a line.
                place.column += len as u32;
                return Lexer {
                    token,
                    rest: after,
                    place,
                };
            }
            Piece::Stop(kind) => {
                let token = Token {
                    kind,
                    text: b"",
                    place,
                };
                return Lexer { token, rest, place };
            }
        }
    }
}
