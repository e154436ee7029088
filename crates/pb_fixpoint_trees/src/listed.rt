//! Rows whose tokens stand in several lists, in an order of their own.
ghost use Rattle.std.specs.Prelude.{◌≡◌, All, IfOk, List, map};
ghost use Rattle.pb_fixpoint_trees.specs.Row.{TokenRow};
ghost use Rattle.pb_fixpoint_trees.specs.Entries.{AreInside, IsListed, IsThere, entry_there};
ghost use Rattle.pb_fixpoint_trees.specs.Entries.{listed_row, rows_in, tokens_in};

use crate::cuts::any_list_has_cut;
use crate::entry::Entry;
use crate::index::Place;
use crate::read_rows::ReadRows;
use crate::rows::{Parts, Rows};
use crate::token_lists::TokenLists;
use crate::tree_tokens::TreeTokens;
use std::alloc::{AllocError, Global};
use std::marker::Model;

/// An entry, and in which list the tokens of its tree stand.
#[derive(Clone, Copy)]
pub(crate) struct ListedEntry {
    pub list: u32,
    pub entry: Entry,
}

/// Rows of several lists. Contracts see them in their order.
#[derive(Drop)]
pub(crate) struct ListedRows {
    /// The tokens of each list.
    pub lists: Vec<TokenLists>,
    pub entries: Vec<ListedEntry>,
}

impl Model for ListedRows {
    ghost Value = { List TokenRow };

    ghost view = { λ rows. map (listed_row rows.lists.items) rows.entries.items };

    ghost invariant = { λ rows. All (IsListed rows.lists.items) rows.entries.items };
}

/// The parts of each list.
pub(crate) fn parts_of(alloc: Global, lists: Vec<Rows>) -> Result<Vec<Parts>, AllocError>
    ensures rows { IfOk result (λ parts. map rows_in parts.items ≡ lists.items) }
    ensures inside { IfOk result (λ parts. All AreInside parts.items) }
{
    let mut parts = Vec::with_capacity(alloc, lists.len())?;
    for rows in lists {
        parts.push(rows.into_parts())?;
    }
    Ok(parts)
}

/// The entries at these places of the lists.
pub(crate) fn entries_there(
    alloc: Global,
    lists: &[Parts],
    index: &[Place],
) -> Result<Vec<ListedEntry>, AllocError>
    requires { All (IsThere (map rows_in lists.now)) index.now }
    ensures { IfOk result (λ entries. entries.items ≡ map (entry_there lists.now) index.now) }
{
    let mut entries = Vec::with_capacity(alloc, index.len())?;
    for place in index {
        let list = place.list;
        let entry = lists[list as usize].entries[place.entry as usize];
        entries.push(ListedEntry { list, entry })?;
    }
    Ok(entries)
}

/// The tokens of each list.
pub(crate) fn tokens_of(alloc: Global, lists: Vec<Parts>) -> Result<Vec<TokenLists>, AllocError>
    ensures { IfOk result (λ tokens. tokens.items ≡ map tokens_in lists.items) }
{
    let mut tokens = Vec::with_capacity(alloc, lists.len())?;
    for parts in lists {
        tokens.push(parts.tokens)?;
    }
    Ok(tokens)
}

impl ReadRows for ListedRows {
    ghost rows = { λ rows. rows };

    fn len(&self) -> usize {
        self.entries.len()
    }

    fn number(&self, place: usize) -> u64 {
        self.entries[place].entry.number
    }

    fn tree_len(&self, place: usize) -> usize {
        self.entries[place].entry.count as usize
    }

    fn tokens(&self, place: usize) -> TreeTokens<'_> {
        let ListedEntry { list, entry } = self.entries[place];
        self.lists[list as usize].tree(entry)
    }

    fn any_cut(&self) -> bool {
        any_list_has_cut(&self.lists)
    }
}
