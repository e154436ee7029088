//! The tokens of a tree, where they stand.
ghost use Rattle.std.specs.Prelude.{◌≡◌, ◌<◌, ◌^◌, [], ◌∷◌, ◌++◌, IfNone, MatchOption, length, map};
ghost use Rattle.std.specs.List.{list_any};
ghost use Rattle.pb_fixpoint_trees.specs.Kinds.{calls_in, kind_of};
ghost use Rattle.pb_fixpoint_trees.specs.Row.{token_is_cut};

use crate::Token;
use crate::cuts::any_cut;
use crate::kind::Kind;
use std::marker::Model;

/// The tokens of a tree, or those of them that were not taken yet. Contracts see a list of tokens.
#[derive(Drop)]
pub struct TreeTokens<'a> {
    pub(crate) kinds: &'a [Kind],
    pub(crate) calls: &'a [u64],
}

impl<'a> Model for TreeTokens<'a> {
    ghost use Rattle.std.specs.Prelude.{List, ◌<◌, ◌^◌, length};
    ghost use Rattle.pb_fixpoint_trees.specs.declared.Token.{Token};
    ghost use Rattle.pb_fixpoint_trees.specs.Kinds.{IsSplit, woven};

    ghost Value = { List Token };

    ghost view = { λ t. woven t.kinds.now t.calls.now };

    ghost invariant = { λ t. IsSplit (woven t.kinds.now t.calls.now) t.kinds.now t.calls.now
        × (length t.kinds.now < 2 ^ 32) };
}

impl<'a> TreeTokens<'a> {
    /// How many tokens there are.
    #[inline(always)]
    pub fn len(&self) -> usize
        ensures value { result ≡ length self.now }
        ensures small { result < 2 ^ 32 }
    {
        self.kinds.len()
    }

    /// What kinds of tokens they are, from the left.
    #[inline(always)]
    pub fn kinds(&self) -> &'a [Kind]
        ensures { result.now ≡ map kind_of self.now }
    {
        self.kinds
    }

    /// The numbers that are called, from the left.
    #[inline(always)]
    pub fn calls(&self) -> &'a [u64]
        ensures { result.now ≡ calls_in self.now }
    {
        self.calls
    }

    /// Whether one of the tokens is a cut.
    pub fn any_cut(&self) -> bool
        ensures { result ≡ list_any token_is_cut self.now }
    {
        any_cut(self.kinds)
    }

    /// Takes the first token, if there is one.
    #[inline(always)]
    pub fn take_first(&mut self) -> Option<Token>
        ensures taken { MatchOption result (self.old ≡ []) (λ first. self.old ≡ first ∷ self.new) }
        ensures none { IfNone result (self.new ≡ []) }
    {
        let kinds = self.kinds;
        let [kind, after @ ..] = kinds else {
            return None;
        };
        self.kinds = after;
        if let Some(token) = kind.token() {
            return Some(token);
        }
        let calls = self.calls;
        let [number, after @ ..] = calls else {
            unreachable!();
        };
        self.calls = after;
        Some(Token::Call(*number))
    }

    /// Takes the last token, if there is one.
    #[inline(always)]
    pub fn take_last(&mut self) -> Option<Token>
        ensures taken { MatchOption result (self.old ≡ [])
            (λ last. self.old ≡ self.new ++ last ∷ []) }
        ensures none { IfNone result (self.new ≡ []) }
    {
        let kinds = self.kinds;
        let [before @ .., kind] = kinds else {
            return None;
        };
        self.kinds = before;
        if let Some(token) = kind.token() {
            return Some(token);
        }
        let calls = self.calls;
        let [before @ .., number] = calls else {
            unreachable!();
        };
        self.calls = before;
        Some(Token::Call(*number))
    }
}
