//! From bytes to a syntax tree.

ghost use Rattle.pb_base.specs.declared.limits.TheConstants.{MAX_INPUT_BYTES};
ghost use Rattle.std.specs.Prelude.{◌≡◌, ◌≤◌, ℕ, length, IfOk};
ghost use Rattle.pb_base.specs.OrMemory.{IfRefused, OnRefused};
ghost use Rattle.pb_text_tree.specs.Form.{SpecForm, spec_form};
ghost use Rattle.pb_text.specs.Parsing.{IsReading, IsReadingWithin, NoReading, IsFirstFault};

use crate::error::TextError;
use crate::system::whole;
use pb_base::{MAX_OPERATORS, OrMemory};
use pb_text_lexer::input::Input;
use pb_text_lexer::language::Language;
use pb_text_lexer::ranges::ranges;
use pb_text_tree::Spec;
use std::alloc::Global;

/// Reads a text of at most 67,108,864 bytes.
///
/// Range lines may stand anywhere in it; the tree has them in order.
///
/// A text that says nothing is refused at its least fault: `TextRule::UnknownByte` (P01),
/// `TextRule::LargeNumber` (P03) or `TextRule::RangeLine` (P05) where a token should stand and none
/// does, `TextRule::UnexpectedToken` (P02) at the first token with which no text goes on,
/// `TextRule::LimitExceeded` (P04) at a token that goes past a limit. Lines and columns count from
/// 1, columns in bytes; the end of the text stands where its next byte would.
pub fn parse(alloc: Global, bytes: &[u8]) -> Result<Spec, TextError>
    requires { length bytes.now ≤ MAX_INPUT_BYTES }
    // It is what the bytes say, within the limits, places included.
    ensures reading { IfOk result (λ s. IsReading bytes.now (spec_form s)) }
    // They say nothing else, within any limits.
    ensures only { IfOk result (λ s. (d n : ℕ) (x : SpecForm) → IsReadingWithin d n bytes.now x
        → x ≡ spec_form s) }
    // Only where they say nothing within the limits, or memory runs out, is there no text.
    ensures refused { OnRefused result (NoReading bytes.now) }
    // The fault stands at its place, and nothing that is no token stands before it. Some text
    // begins with the tokens before it, so P02 stands at the first with which none goes on; and no
    // token before it is past a limit. At P04 no text within the limits begins with that token too,
    // so it is the first past a limit; with one level and one operator more some text does.
    ensures stands { IfRefused result (IsFirstFault bytes.now) }
{
    let mut input = Input::new(Language::Text, bytes, MAX_OPERATORS as u32);
    let mut text = whole(&mut input, alloc).map_err(OrMemory::raise)?;
    text.ranges = ranges(alloc, Language::Text, bytes)?;
    Ok(text)
}
