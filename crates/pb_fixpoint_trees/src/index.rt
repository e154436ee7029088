//! Rows in the order of an index.
ghost use Rattle.std.specs.Prelude.{◌≡◌, All, IfOk, List, map};
ghost use Rattle.pb_fixpoint_trees.specs.Row.{TokenRow};
ghost use Rattle.pb_fixpoint_trees.specs.Entries.{IsThere, row_there};
ghost use Rattle.pb_fixpoint_trees.specs.Order.{rows_in_order};

use crate::listed::{ListedRows, entries_there, parts_of, tokens_of};
use crate::read_rows::ReadRows;
use crate::rows::Rows;
use crate::tree_tokens::TreeTokens;
use std::alloc::{AllocError, Global};
use std::marker::Model;

/// A place among lists of rows: which list, and which of its rows, both counted from 0.
#[derive(Clone, Copy)]
pub struct Place {
    pub list: u32,
    pub entry: u32,
}

/// Rows in an order, by where their tokens stand: an entry of one list need not say which.
#[derive(Drop)]
pub(crate) enum Order {
    Single(Rows),
    Several(ListedRows),
}

/// Rows in the order of an index. Their tokens stay where they were found, while their entries lie
/// in that order too, so that going over them reads nothing that lies far apart but the tokens.
/// Contracts see the rows in that order.
#[derive(Drop)]
pub struct IndexedRows {
    order: Order,
}

impl Model for IndexedRows {
    ghost Value = { List TokenRow };

    ghost view = { λ rows. rows_in_order rows.order };
}

impl IndexedRows {
    /// Rows of one list, in their order there.
    pub fn of_rows(rows: Rows) -> IndexedRows
        ensures { result ≡ rows }
    {
        IndexedRows {
            order: Order::Single(rows),
        }
    }

    /// The rows at these places of the lists.
    ///
    /// # Errors
    /// Memory was refused.
    pub fn new(
        alloc: Global,
        lists: Vec<Rows>,
        index: Vec<Place>,
    ) -> Result<IndexedRows, AllocError>
        requires { All (IsThere lists.items) index.items }
        ensures { IfOk result (λ rows. rows ≡ map (row_there lists.items) index.items) }
    {
        let parts = parts_of(alloc, lists)?;
        let entries = entries_there(alloc, &parts, &index)?;
        drop(index);
        let lists = tokens_of(alloc, parts)?;
        let order = Order::Several(ListedRows { lists, entries });
        Ok(IndexedRows { order })
    }
}

impl ReadRows for IndexedRows {
    ghost rows = { λ rows. rows };

    fn len(&self) -> usize {
        match &self.order {
            Order::Single(rows) => rows.len(),
            Order::Several(rows) => rows.len(),
        }
    }

    fn number(&self, place: usize) -> u64 {
        match &self.order {
            Order::Single(rows) => rows.number(place),
            Order::Several(rows) => rows.number(place),
        }
    }

    fn tree_len(&self, place: usize) -> usize {
        match &self.order {
            Order::Single(rows) => rows.tree_len(place),
            Order::Several(rows) => rows.tree_len(place),
        }
    }

    fn tokens(&self, place: usize) -> TreeTokens<'_> {
        match &self.order {
            Order::Single(rows) => rows.tokens(place),
            Order::Several(rows) => rows.tokens(place),
        }
    }

    fn any_cut(&self) -> bool {
        match &self.order {
            Order::Single(rows) => rows.any_cut(),
            Order::Several(rows) => rows.any_cut(),
        }
    }
}
