//! The tokens of trees in two lists.
ghost use Rattle.std.specs.Prelude.{◌≡◌, ◌+◌, ◌≤◌, [], ◌++◌, OnErr, OnOk, drop, length, map, take};
ghost use Rattle.std.specs.Prelude.{vec_capacity, vec_len};
ghost use Rattle.std.specs.List.{list_any};
ghost use Rattle.pb_fixpoint_trees.specs.Kinds.{calls_in, kind_of};
ghost use Rattle.pb_fixpoint_trees.specs.Entries.{IsInside, tree_at};
ghost use Rattle.pb_fixpoint_trees.specs.Row.{token_is_cut};

use crate::Token;
use crate::cuts::any_cut;
use crate::entry::Entry;
use crate::kind::Kind;
use crate::tree_tokens::TreeTokens;
use std::alloc::{AllocError, Global};
use std::marker::Model;

/// Tokens one behind another: what kinds they are of, a byte each, and the numbers that they call.
/// Contracts see a list of tokens.
#[derive(Drop)]
pub(crate) struct TokenLists {
    kinds: Vec<Kind>,
    calls: Vec<u64>,
}

impl Model for TokenLists {
    ghost use Rattle.std.specs.Prelude.{List};
    ghost use Rattle.pb_fixpoint_trees.specs.declared.Token.{Token};
    ghost use Rattle.pb_fixpoint_trees.specs.Kinds.{IsSplit, woven};

    ghost Value = { List Token };

    ghost view = { λ t. woven t.kinds.items t.calls.items };

    ghost invariant = { λ t. IsSplit
        (woven t.kinds.items t.calls.items) t.kinds.items t.calls.items };
}

/// Adds tokens to two lists that have room for them.
#[inline(always)]
fn push_each(kinds: &mut Vec<Kind>, calls: &mut Vec<u64>, more: &[Token])
    requires kinds { vec_len kinds.old + length more.now ≤ vec_capacity kinds.old }
    requires calls { vec_len calls.old + length more.now ≤ vec_capacity calls.old }
    ensures kinds { kinds.new.items ≡ kinds.old.items ++ map kind_of more.now }
    ensures calls { calls.new.items ≡ calls.old.items ++ calls_in more.now }
{
    for token in more {
        kinds.push_reserved(Kind::of(*token));
        if let Token::Call(number) = *token {
            calls.push_reserved(number);
        }
    }
}

/// Some items of a list, one behind another.
#[inline(always)]
fn part<T>(list: &[T], first: usize, count: u32) -> &[T]
    requires { first + count ≤ length list.now }
    ensures { result.now ≡ take count (drop first list.now) }
{
    &list[first..first + count as usize]
}

impl TokenLists {
    /// No tokens.
    pub fn new(alloc: Global) -> TokenLists
        ensures { result ≡ [] }
    {
        TokenLists {
            kinds: Vec::new(alloc),
            calls: Vec::new(alloc),
        }
    }

    /// How many tokens there are.
    pub fn len(&self) -> usize
        ensures { result ≡ length self.now }
    {
        self.kinds.len()
    }

    /// How many of them are calls.
    pub fn call_count(&self) -> usize
        ensures { result ≡ length (calls_in self.now) }
    {
        self.calls.len()
    }

    /// Adds tokens at the end, one by one, which costs less for a small tree than calls that copy
    /// memory.
    ///
    /// # Errors
    /// Memory was refused. The tokens are then as they were.
    #[inline(always)]
    pub fn append(&mut self, more: &[Token]) -> Result<(), AllocError>
        ensures ok { OnOk result (self.new ≡ self.old ++ more.now) }
        ensures err { OnErr result (self.new ≡ self.old) }
    {
        self.kinds.reserve(more.len())?;
        self.calls.reserve(more.len())?;
        push_each(&mut self.kinds, &mut self.calls, more);
        Ok(())
    }

    /// Adds the tokens of a tree that stands elsewhere.
    ///
    /// # Errors
    /// Memory was refused. The tokens are then as they were.
    pub fn append_tree(&mut self, more: &TreeTokens<'_>) -> Result<(), AllocError>
        ensures ok { OnOk result (self.new ≡ self.old ++ more.now) }
        ensures err { OnErr result (self.new ≡ self.old) }
    {
        self.calls.reserve(more.calls.len())?;
        self.kinds.extend_from_slice(more.kinds)?;
        self.calls.extend_from_slice(more.calls)?;
        Ok(())
    }

    /// The tokens of an entry's tree.
    #[inline(always)]
    pub fn tree(&self, entry: Entry) -> TreeTokens<'_>
        requires { IsInside self.now entry }
        ensures { result ≡ tree_at self.now entry }
    {
        TreeTokens {
            kinds: part(&self.kinds, entry.first, entry.count),
            calls: part(&self.calls, entry.first_call, entry.calls),
        }
    }

    /// Whether one of the tokens is a cut.
    pub fn any_cut(&self) -> bool
        ensures { result ≡ list_any token_is_cut self.now }
    {
        any_cut(&self.kinds)
    }
}
