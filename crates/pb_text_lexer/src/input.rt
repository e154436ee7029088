//! The tokens that a reader has before it, one of which it sees, and the steps that take them.

ghost use Rattle.std.specs.Prelude.{◌≡◌, ◌-◌, ◌<◌, ◌^◌, length, false, true, Ok, OnOk, IfOk};
ghost use Rattle.std.specs.Str.Parse.{digits_value};
ghost use Rattle.pb_base.specs.Names.{is_spelled};
ghost use Rattle.pb_text_lexer.specs.Grammar.{State};
ghost use Rattle.pb_text_lexer.specs.Kinds.{is_last};
ghost use Rattle.pb_text_lexer.specs.Lexing.{start};
ghost use Rattle.pb_text_lexer.specs.Remaining.{tokens_from};
ghost use Rattle.pb_text_lexer.specs.Steps as spec;
ghost use Rattle.pb_text_lexer.specs.Steps.{GivesExactly};
ghost use Rattle.pb_text_lexer.specs.Tokens.{tok, token_at};

use crate::digits::value_within;
use crate::fault::{ReadingRule, Refusal};
use crate::kind::{Kind, same_kind};
use crate::language::Language;
use crate::lexer::{Lexer, first_token, text_of};
use crate::piece::LARGEST_NUMBER;
use crate::token::Token;
use pb_text_tree::Place;
use std::marker::Model;

/// What a reader has before it: tokens, which are cut as they are taken, and an allowance of
/// operators.
#[derive(Drop)]
pub struct Input<'a> {
    language: Language,
    lexer: Lexer<'a>,
    operators: u32,
}

impl<'a> Model for Input<'a> {
    ghost use Rattle.pb_text_lexer.specs.Grammar.{State};

    ghost Value = { State };

    ghost use Rattle.pb_text_lexer.specs.View.{state_of, IsConsistent};

    ghost view = { state_of };

    ghost invariant = { IsConsistent };
}

impl<'a> Input<'a> {
    /// All tokens of a text of the language, with an allowance of operators with two operands.
    pub fn new(language: Language, bytes: &'a [u8], operators: u32) -> Input<'a>
        requires { length bytes.now < 2 ^ 32 - 1 }
        ensures { result ≡ record {
          tokens = tokens_from language bytes.now 0 start;
          operators = operators;
        } }
    {
        let place = Place { line: 1, column: 1 };
        Input {
            language,
            lexer: first_token(language, bytes, place),
            operators,
        }
    }

    /// The kind of the next token.
    pub fn kind(&self) -> Kind
        ensures { result ≡ spec.kind self.now }
    {
        self.lexer.token.kind
    }

    /// Where the next token stands.
    pub fn place(&self) -> Place
        ensures { result ≡ spec.place self.now }
    {
        self.lexer.token.place
    }

    /// The value of the next token, a number.
    pub fn number(&self) -> u64
        requires { spec.kind self.now ≡ Kind.Number }
        ensures { result ≡ digits_value 10 (spec.head_text self.now.tokens) }
    {
        match value_within(self.lexer.token.text, LARGEST_NUMBER) {
            Some(value) => value,
            None => unreachable!(),
        }
    }

    /// How many operators with two operands may still come.
    pub fn operators(&self) -> u32
        ensures { result ≡ self.now.operators }
    {
        self.operators
    }

    /// Allows so many operators with two operands.
    pub fn allow(&mut self, operators: u32)
        ensures { self.new ≡ record self.old { operators = operators } }
    {
        self.operators = operators;
    }

    /// The refusal of the next token.
    pub fn refuse(&self, rule: ReadingRule) -> Refusal
        ensures { result ≡ spec.refusal rule self.now.tokens }
    {
        let Token { kind, place, .. } = self.lexer.token;
        Refusal { rule, kind, place }
    }

    /// Takes the next token.
    #[tactic(auto, unfolding(crate::specs::Steps::take_token))]
    pub fn take(&mut self) -> Token<'a>
        requires { is_last (spec.kind self.old) ≡ false }
        ensures reads { spec.take_token self.old ≡ Ok (tok result, self.new) }
        ensures fewer { length self.new.tokens < length self.old.tokens }
    {
        let Lexer { token, rest, place } = self.lexer;
        self.lexer = first_token(self.language, rest, place);
        token
    }

    /// Takes the next token, which must be of this kind (P02).
    ///
    /// A token of another kind is refused as `ReadingRule::Unexpected`, which is the one error.
    #[tactic(auto, unfolding(crate::specs::Steps::expect))]
    pub fn expect(&mut self, kind: Kind) -> Result<Token<'a>, Refusal>
        requires { is_last kind ≡ false }
        ensures reads { GivesExactly tok (spec.expect kind self.old) result self.new }
        ensures fewer { OnOk result (length self.new.tokens < length self.old.tokens) }
    {
        if same_kind(self.kind(), kind) {
            Ok(self.take())
        } else {
            Err(self.refuse(ReadingRule::Unexpected))
        }
    }

    /// Takes the next token, which must be a name, and gives its place and its text.
    ///
    /// A token of another kind is refused as `ReadingRule::Unexpected`, which is the one error.
    #[tactic(auto, unfolding(crate::specs::Steps::expect))]
    pub fn expect_name(&mut self) -> Result<(Place, &'a str), Refusal>
        ensures reads { GivesExactly (λ name. token_at name.0 Kind.Name name.1.now)
            (spec.expect Kind.Name self.old) result self.new }
        ensures spelled { IfOk result (λ name. is_spelled name.1.now ≡ true) }
        ensures fewer { OnOk result (length self.new.tokens < length self.old.tokens) }
    {
        if !same_kind(self.kind(), Kind::Name) {
            return Err(self.refuse(ReadingRule::Unexpected));
        }
        let text = text_of(self.lexer.token.text);
        let place = self.take().place;
        Ok((place, text))
    }

    /// Takes the next token, an operator with two operands.
    ///
    /// Where no more of these may come it is refused as `ReadingRule::Limit` (P04), which is the
    /// one error.
    #[tactic(auto, unfolding(crate::specs::Steps::take_operator))]
    pub fn take_operator(&mut self) -> Result<Token<'a>, Refusal>
        requires { is_last (spec.kind self.old) ≡ false }
        ensures reads { GivesExactly tok (spec.take_operator self.old) result self.new }
        ensures fewer { OnOk result (length self.new.tokens < length self.old.tokens) }
    {
        if self.operators == 0 {
            return Err(self.refuse(ReadingRule::Limit));
        }
        self.operators -= 1;
        Ok(self.take())
    }

    /// Takes the next token, which opens a level, where so many levels may still open.
    ///
    /// Where none may, it is refused as `ReadingRule::Limit` (P04), which is the one error.
    pub fn enter(&mut self, depth: u32) -> Result<Token<'a>, Refusal>
        requires { is_last (spec.kind self.old) ≡ false }
        ensures reads { GivesExactly tok (spec.enter depth self.old) result self.new }
        ensures fewer { OnOk result (length self.new.tokens < length self.old.tokens) }
        ensures deeper { OnOk result (0 < depth) }
    {
        if depth == 0 {
            return Err(self.refuse(ReadingRule::Limit));
        }
        Ok(self.take())
    }
}
