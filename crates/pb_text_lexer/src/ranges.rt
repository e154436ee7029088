//! The range lines of a whole text.

ghost use Rattle.std.specs.Prelude.{◌≡◌, ◌-◌, ◌<◌, ◌^◌, ◌++◌, ℕ, false, [], length, map, IfOk};
ghost use Rattle.std.specs.Prelude.{OnOk};
ghost use Rattle.pb_text_tree.specs.declared.place.Place.{Place};
ghost use Rattle.pb_text_lexer.specs.declared.language.Language.{Language};
ghost use Rattle.pb_text_tree.specs.Form.{range_form};
ghost use Rattle.pb_text_lexer.specs.Lexing.{start};
ghost use Rattle.pb_text_lexer.specs.RangeLines as spec;
ghost use Rattle.pb_text_lexer.specs.RangeLines.{bounded_by};
ghost use Rattle.pb_text_lexer.specs.Remaining.{ranges_from};

use crate::language::Language;
use crate::lexer::past;
use crate::model_piece::piece_in;
use crate::piece::Piece;
use crate::range_line::{RangeLine, said};
use pb_text_tree::{Place, Range};
use std::alloc::{AllocError, Global};

/// The range line at a place, at the front of the bytes from there on, if one stands there.
#[tactic(auto, unfolding(crate::specs::RangeLines::ranges_at))]
fn range_at(place: Place, bytes: &[u8]) -> Option<RangeLine<'_>>
    ensures { spec.placed place (bounded_by result) ≡ spec.ranges_at place bytes.now }
{
    match bytes {
        [] => None,
        [first, rest @ ..] => {
            if *first == b'%' && place.column == 1 {
                said(rest)
            } else {
                None
            }
        }
    }
}

/// The range that a line at a place gives.
fn range(alloc: Global, place: Place, line: RangeLine<'_>) -> Result<Range, AllocError>
    ensures { IfOk result (λ r. range_form r ≡ spec.range_at_place place
        (spec.bounded_line line.entry)) }
{
    let RangeLine { name, low, high } = line;
    let name = name.to_owned(alloc)?;
    Ok(Range {
        place,
        name,
        low,
        high,
    })
}

/// Adds the range of the line at a place, at the front of the bytes from there on, if a range line
/// stands there, and says whether it did.
fn add_range(
    alloc: Global,
    ranges: &mut Vec<Range>,
    place: Place,
    bytes: &[u8],
) -> Result<bool, AllocError>
    ensures { OnOk result (map range_form ranges.new.items
        ≡ map range_form ranges.old.items ++ spec.ranges_at place bytes.now) }
{
    match range_at(place, bytes) {
        None => Ok(false),
        Some(line) => {
            ranges.push(range(alloc, place, line)?)?;
            Ok(true)
        }
    }
}

/// Whether `%r` stands at the front.
fn is_mark(bytes: &[u8]) -> bool
    ensures { result ≡ spec.is_mark bytes.now }
{
    match bytes {
        [b'%', b'r', ..] => true,
        _ => false,
    }
}

/// Whether a range line may stand anywhere in the bytes: a quick test, so that most of a text isn't
/// cut twice.
fn may_follow(bytes: &[u8]) -> bool
    ensures { result ≡ false → (l : Language) (n : ℕ) (p : Place)
        → ranges_from l bytes.now n p ≡ [] }
{
    let mut rest = bytes;
    'bytes: while !rest.is_empty() {
        if is_mark(rest) {
            return true;
        }
        let (_, after) = rest.split_at(1);
        rest = after;
    }
    false
}

/// The range lines of a text of the language, in order, up to where no token stands or to the end.
pub fn ranges(alloc: Global, language: Language, bytes: &[u8]) -> Result<Vec<Range>, AllocError>
    requires { length bytes.now < 2 ^ 32 - 1 }
    ensures { IfOk result (λ v. map range_form v.items ≡ ranges_from language bytes.now 0 start) }
{
    let mut ranges = Vec::new(alloc);
    if !may_follow(bytes) {
        return Ok(ranges);
    }
    let mut rest = bytes;
    let mut place = Place { line: 1, column: 1 };
    'pieces: loop {
        match piece_in(language, place, rest) {
            Piece::Blank(len) => {
                let found = add_range(alloc, &mut ranges, place, rest)?;
                let (text, after) = rest.split_at(len);
                if found && !may_follow(after) {
                    return Ok(ranges);
                }
                place = past(place, text);
                rest = after;
            }
            Piece::Token(_, len) => {
                let (text, after) = rest.split_at(len);
                place = past(place, text);
                rest = after;
            }
            Piece::Stop(_) => return Ok(ranges),
        }
    }
}
