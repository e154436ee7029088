//! Rows of one list that are put into another order.
ghost use Rattle.std.specs.Prelude.{◌≡◌, ◌<◌, [], ◌∷◌, ◌++◌, IfOk, OnErr, OnOk, length};
ghost use Rattle.std.specs.Prelude.{slice_index_or};
ghost use Rattle.pb_fixpoint_trees.specs.Row.{nothing};

use crate::entry::Entry;
use crate::room::push;
use crate::rows::{Parts, Rows};
use crate::token_lists::TokenLists;
use std::alloc::{AllocError, Global};
use std::marker::Model;

/// Rows of one list, and those of them that were chosen so far, in the order of choice. Contracts
/// see both.
#[derive(Drop)]
pub struct Reordering {
    entries: Vec<Entry>,
    tokens: TokenLists,
    chosen: Vec<Entry>,
}

impl Model for Reordering {
    ghost use Rattle.std.specs.Prelude.{All, map};
    ghost use Rattle.pb_fixpoint_trees.specs.Row.{ChosenRows};
    ghost use Rattle.pb_fixpoint_trees.specs.Entries.{IsInside, row_at};

    ghost Value = { ChosenRows };

    ghost view = { λ r. record {
      rows = map (row_at r.tokens) r.entries.items;
      chosen = map (row_at r.tokens) r.chosen.items;
    } };

    ghost invariant = { λ r. All (IsInside r.tokens) r.entries.items
        × All (IsInside r.tokens) r.chosen.items };
}

impl Reordering {
    /// These rows, none of which is chosen yet, with room to choose each.
    ///
    /// # Errors
    /// Memory was refused.
    pub fn start(alloc: Global, rows: Rows) -> Result<Reordering, AllocError>
        ensures rows { IfOk result (λ r. r.rows ≡ rows) }
        ensures none { IfOk result (λ r. r.chosen ≡ []) }
    {
        let Parts { entries, tokens } = rows.into_parts();
        let chosen = Vec::with_capacity(alloc, entries.len())?;
        Ok(Reordering {
            entries,
            tokens,
            chosen,
        })
    }

    /// How many rows there are to choose from.
    pub fn len(&self) -> usize
        ensures { result ≡ length self.now.rows }
    {
        self.entries.len()
    }

    /// The number of the instance of a row to choose from.
    pub fn number(&self, place: usize) -> u64
        requires { place < length self.now.rows }
        ensures { result ≡ (slice_index_or self.now.rows place nothing).number }
    {
        self.entries[place].number
    }

    /// Chooses a row next.
    ///
    /// # Errors
    /// Memory was refused. All is then as it was.
    pub fn choose(&mut self, place: usize) -> Result<(), AllocError>
        requires { place < length self.old.rows }
        ensures rows { self.new.rows ≡ self.old.rows }
        ensures ok { OnOk result (self.new.chosen
            ≡ self.old.chosen ++ slice_index_or self.old.rows place nothing ∷ []) }
        ensures err { OnErr result (self.new.chosen ≡ self.old.chosen) }
    {
        let entry = self.entries[place];
        push(&mut self.chosen, entry)
    }

    /// The chosen rows, in the order of choice.
    pub fn into_rows(self) -> Rows
        ensures { result ≡ self.chosen }
    {
        let Reordering {
            entries: _,
            tokens,
            chosen,
        } = self;
        Rows::of_parts(Parts {
            entries: chosen,
            tokens,
        })
    }
}
