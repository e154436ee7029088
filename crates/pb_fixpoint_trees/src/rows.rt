//! Rows: reached instances with the tokens of their trees, which stand one behind another.
ghost use Rattle.std.specs.Prelude.{◌≡◌, ◌<◌, ◌^◌, [], ◌∷◌, ◌++◌, All, List, OnErr, OnOk};
ghost use Rattle.std.specs.Prelude.{length, map};
ghost use Rattle.pb_fixpoint_trees.specs.Row.{TokenRow, row_of_tokens};
ghost use Rattle.pb_fixpoint_trees.specs.Entries.{AreInside, IsInside, row_at, rows_in};

use crate::Token;
use crate::entry::Entry;
use crate::read_rows::ReadRows;
use crate::room::push;
use crate::token_lists::TokenLists;
use crate::tree_tokens::TreeTokens;
use std::alloc::{AllocError, Global};
use std::marker::Model;

/// Rows in the order in which they were found. Contracts see a list of them.
#[derive(Drop)]
pub struct Rows {
    entries: Vec<Entry>,
    tokens: TokenLists,
}

/// The parts of some rows, which say nothing of each other by themselves.
#[derive(Drop)]
pub(crate) struct Parts {
    pub entries: Vec<Entry>,
    pub tokens: TokenLists,
}

impl Model for Rows {
    ghost Value = { List TokenRow };

    ghost view = { λ rows. map (row_at rows.tokens) rows.entries.items };

    ghost invariant = { λ rows. All (IsInside rows.tokens) rows.entries.items };
}

impl Rows {
    /// No rows.
    pub fn new(alloc: Global) -> Rows
        ensures { result ≡ [] }
    {
        Rows {
            entries: Vec::new(alloc),
            tokens: TokenLists::new(alloc),
        }
    }

    /// Adds a row at the end.
    ///
    /// # Errors
    /// Memory was refused. The rows are then as they were.
    pub fn push(&mut self, number: u64, tokens: &[Token]) -> Result<(), AllocError>
        requires { length tokens.now < 2 ^ 32 }
        ensures ok { OnOk result (self.new ≡ self.old ++ row_of_tokens number tokens.now ∷ []) }
        ensures err { OnErr result (self.new ≡ self.old) }
    {
        let first = self.tokens.len();
        let first_call = self.tokens.call_count();
        self.tokens.append(tokens)?;
        let entry = Entry {
            number,
            first,
            first_call,
            count: tokens.len() as u32,
            calls: (self.tokens.call_count() - first_call) as u32,
        };
        push(&mut self.entries, entry)?;
        Ok(())
    }

    /// Adds a row at the end, whose tree stands among other rows.
    ///
    /// # Errors
    /// Memory was refused. The rows are then as they were.
    pub fn push_row(&mut self, number: u64, tokens: &TreeTokens<'_>) -> Result<(), AllocError>
        ensures ok { OnOk result (self.new ≡ self.old ++ row_of_tokens number tokens.now ∷ []) }
        ensures err { OnErr result (self.new ≡ self.old) }
    {
        let entry = Entry {
            number,
            first: self.tokens.len(),
            first_call: self.tokens.call_count(),
            count: tokens.len() as u32,
            calls: tokens.calls().len() as u32,
        };
        self.tokens.append_tree(tokens)?;
        push(&mut self.entries, entry)?;
        Ok(())
    }

    /// The rows of these parts.
    pub(crate) fn of_parts(parts: Parts) -> Rows
        requires { AreInside parts }
        ensures { result ≡ rows_in parts }
    {
        let Parts { entries, tokens } = parts;
        Rows { entries, tokens }
    }

    /// The entries and the tokens.
    pub(crate) fn into_parts(self) -> Parts
        ensures rows { rows_in result ≡ self }
        ensures inside { AreInside result }
    {
        let Rows { entries, tokens } = self;
        Parts { entries, tokens }
    }
}

impl ReadRows for Rows {
    ghost rows = { λ rows. rows };

    fn len(&self) -> usize {
        self.entries.len()
    }

    fn number(&self, place: usize) -> u64 {
        self.entries[place].number
    }

    fn tree_len(&self, place: usize) -> usize {
        self.entries[place].count as usize
    }

    fn tokens(&self, place: usize) -> TreeTokens<'_> {
        self.tokens.tree(self.entries[place])
    }

    fn any_cut(&self) -> bool {
        self.tokens.any_cut()
    }
}
