//! From bytes to a syntax tree.

ghost use Rattle.pb_base.specs.declared.limits.TheConstants.{MAX_INPUT_BYTES};
ghost use Rattle.std.specs.Prelude.{◌≡◌, ◌≤◌, ℕ, length, IfOk};
ghost use Rattle.pb_base.specs.OrMemory.{IfRefused, OnRefused};
ghost use Rattle.pb_protocol_tree.specs.Form.{ModelTextForm, model_text_form};
ghost use Rattle.pb_model_text.specs.Parsing.{IsModelReading, IsModelReadingWithin, NoModelReading};
ghost use Rattle.pb_model_text.specs.Parsing.{IsFirstModelFault};

use crate::model::whole;
use pb_base::{MAX_OPERATORS, OrMemory};
use pb_protocol_tree::ModelText;
use pb_text::error::TextError;
use pb_text_lexer::input::Input;
use pb_text_lexer::language::Language;
use pb_text_lexer::ranges::ranges;
use std::alloc::Global;

/// Reads the text of a model, of at most 67,108,864 bytes.
///
/// Range lines may stand anywhere in it; the tree has them in order.
///
/// A text that says nothing is refused at its least fault, by the rules of texts:
/// `TextRule::UnknownByte` (P01), `TextRule::LargeNumber` (P03) or `TextRule::RangeLine` (P05)
/// where a token should stand and none does, `TextRule::UnexpectedToken` (P02) at the first token
/// with which no model goes on, `TextRule::LimitExceeded` (P04) at a token that goes past a limit.
/// Lines and columns count from 1, columns in bytes; the end of the text stands where its next byte
/// would.
pub fn parse_model(alloc: Global, bytes: &[u8]) -> Result<ModelText, TextError>
    requires { length bytes.now ≤ MAX_INPUT_BYTES }
    // It is what the bytes say, within the limits, places included.
    ensures reading { IfOk result (λ m. IsModelReading bytes.now (model_text_form m)) }
    // They say nothing else, within any limits.
    ensures only { IfOk result
        (λ m. (d n : ℕ) (x : ModelTextForm) → IsModelReadingWithin d n bytes.now x
        → x ≡ model_text_form m) }
    // Only where they say nothing within the limits, or memory runs out, is there no model.
    ensures refused { OnRefused result (NoModelReading bytes.now) }
    // The fault stands at its place, and nothing that is no token stands before it. Some model
    // begins with the tokens before it, so P02 stands at the first with which none goes on; and no
    // token before it is past a limit. At P04 no model within the limits begins with that token
    // too, so it is the first past a limit; with one level and one operator more some model does.
    ensures stands { IfRefused result (IsFirstModelFault bytes.now) }
{
    let mut input = Input::new(Language::Model, bytes, MAX_OPERATORS as u32);
    let mut model = whole(&mut input, alloc).map_err(OrMemory::raise)?;
    model.protocol.ranges = ranges(alloc, Language::Model, bytes)?;
    Ok(model)
}
