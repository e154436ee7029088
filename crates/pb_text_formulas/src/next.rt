//! What the next token must be, or must not be.

ghost use Rattle.std.specs.Prelude.{◌≡◌, ◌<◌, true, false, OnOk, MatchResult};
ghost use Rattle.pb_text_lexer.specs.Kinds.{same_kind};
ghost use Rattle.pb_text_lexer.specs.Steps as spec;
ghost use Rattle.pb_text_lexer.specs.Tokens.{tok};
ghost use Rattle.pb_text_terms.specs.Readers.{ReadsSomeExactly};
ghost use Rattle.pb_text_formulas.specs.Reading as reading;

use pb_text_lexer::fault::{ReadingRule, Refusal};
use pb_text_lexer::input::Input;
use pb_text_lexer::kind::{Kind, same_kind};
use pb_text_lexer::token::Token;

/// Takes an opening bracket, where so many levels may still open.
///
/// Another token is refused as `ReadingRule::Unexpected`, and where no level may open the bracket
/// as `ReadingRule::Limit`.
#[tactic(auto, unfolding(crate::specs::Reading::opening))]
pub fn open<'a>(input: &mut Input<'a>, depth: u32) -> Result<Token<'a>, Refusal>
    ensures reads { ReadsSomeExactly tok (reading.opening (spec.enter depth))
        input.old result input.new }
    ensures deeper { OnOk result (0 < depth) }
{
    if same_kind(input.kind(), Kind::Open) {
        input.enter(depth)
    } else {
        Err(input.refuse(ReadingRule::Unexpected))
    }
}

/// Refuses the next token as `ReadingRule::Unexpected` if it is of this kind.
pub fn unless(input: &Input<'_>, kind: Kind) -> Result<(), Refusal>
    ensures { MatchResult result (λ u. same_kind (spec.kind input.now) kind ≡ false)
        (λ e. (same_kind (spec.kind input.now) kind ≡ true)
        × (e ≡ spec.refusal ReadingRule.Unexpected input.now.tokens)) }
{
    if same_kind(input.kind(), kind) {
        Err(input.refuse(ReadingRule::Unexpected))
    } else {
        Ok(())
    }
}
