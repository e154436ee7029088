//! Range lines: a comment `%range NAME LO HI` at the beginning of a line, which gives a sort its
//! carrier.

ghost use Rattle.std.specs.Prelude.{◌≡◌, ◌≤◌, length};
ghost use Rattle.pb_text_lexer.specs.Bytes.{line};
ghost use Rattle.pb_text_lexer.specs.RangeLines as spec;
ghost use Rattle.pb_text_lexer.specs.RangeLines.{bounded_by};

use crate::bytes::line_len;
use crate::digits::whole_within;
use crate::lexer::text_of;
use crate::word::is_name;

/// What a range line says: a name, and the lowest and the highest value.
#[derive(Clone, Copy)]
pub struct RangeLine<'a> {
    pub name: &'a str,
    pub low: i32,
    pub high: i32,
}

fn is_gap(b: u8) -> bool
    ensures { result ≡ spec.is_gap b }
{
    b == b' ' || b == b'\t'
}

fn gap_len(bytes: &[u8]) -> usize
    ensures value { result ≡ length (spec.gap bytes.now) }
    ensures fits { result ≤ length bytes.now }
{
    bytes.iter().take_while(|b| is_gap(**b)).count()
}

fn word_len(bytes: &[u8]) -> usize
    ensures value { result ≡ length (spec.in_word bytes.now) }
    ensures fits { result ≤ length bytes.now }
{
    bytes.iter().take_while(|b| !is_gap(**b)).count()
}

/// The first word, and what stands behind it.
fn first_word(bytes: &[u8]) -> (&[u8], &[u8])
    ensures word { result.0.now ≡ spec.word bytes.now }
    ensures rest { result.1.now ≡ spec.behind_word bytes.now }
{
    let (_, bytes) = bytes.split_at(gap_len(bytes));
    bytes.split_at(word_len(bytes))
}

/// A bound, from -2^31 to 2^31 - 1.
#[tactic(auto, unfolding(crate::specs::RangeLines::bound))]
fn bound(word: &[u8]) -> Option<i32>
    ensures { result ≡ spec.bound word.now }
{
    match word {
        [] => None,
        [b'-', digits @ ..] => match whole_within(digits, 2_147_483_648) {
            None => None,
            Some(value) => Some((-(value as i64)) as i32),
        },
        _ => match whole_within(word, 2_147_483_647) {
            None => None,
            Some(value) => Some(value as i32),
        },
    }
}

/// What the words of a range line say.
#[tactic(auto, unfolding(crate::specs::RangeLines::words_bound))]
fn words_bound(bytes: &[u8]) -> Option<RangeLine<'_>>
    ensures { bounded_by result ≡ spec.words_bound bytes.now }
{
    let (name, rest) = first_word(bytes);
    let (low, rest) = first_word(rest);
    let (high, rest) = first_word(rest);
    let (extra, _) = first_word(rest);
    if !is_name(name) {
        return None;
    }
    if !extra.is_empty() {
        return None;
    }
    match (bound(low), bound(high)) {
        (Some(low), Some(high)) => {
            if low <= high {
                let name = text_of(name);
                Some(RangeLine { name, low, high })
            } else {
                None
            }
        }
        _ => None,
    }
}

fn without_return(bytes: &[u8]) -> &[u8]
    ensures { result.now ≡ spec.without_return bytes.now }
{
    let len = bytes.len();
    if len > 0 && bytes[len - 1] == b'\r' {
        &bytes[..len - 1]
    } else {
        bytes
    }
}

fn ends_word(bytes: &[u8]) -> bool
    ensures { result ≡ spec.ends_word bytes.now }
{
    match bytes {
        [] => true,
        [first, ..] => *first == b' ' || *first == b'\t',
    }
}

/// What a comment that goes on with the line has behind the word `range`, if it begins with that.
#[tactic(auto, unfolding(crate::specs::RangeLines::behind_range))]
fn behind_range(line: &[u8]) -> Option<&[u8]>
    ensures { spec.now_of result ≡ spec.behind_range line.now }
{
    match line {
        [b'r', b'a', b'n', b'g', b'e', rest @ ..] => {
            if ends_word(rest) { Some(rest) } else { None }
        }
        _ => None,
    }
}

/// Whether a comment that begins its line and goes on with these bytes is a range line that says
/// nothing (P05).
pub fn is_wrong(bytes: &[u8]) -> bool
    ensures { result ≡ spec.is_wrong (spec.behind_range (line bytes.now)) }
{
    let (line, _) = bytes.split_at(line_len(bytes));
    match behind_range(line) {
        None => false,
        Some(text) => words_bound(without_return(text)).is_none(),
    }
}

/// What a comment that begins its line and goes on with these bytes says, if it is a range line.
pub fn said(bytes: &[u8]) -> Option<RangeLine<'_>>
    ensures { bounded_by result ≡ spec.said (spec.behind_range (line bytes.now)) }
{
    let (line, _) = bytes.split_at(line_len(bytes));
    match behind_range(line) {
        None => None,
        Some(text) => words_bound(without_return(text)),
    }
}
