//! The vertices of rows, from the last row to the first.
ghost use Rattle.std.specs.Prelude.{◌≡◌, ◌≤◌, IfOk};
ghost use Rattle.pb_game_of_trees.specs.RowRanges.{AreHeld, HoldsRange};
ghost use Rattle.pb_game.specs.declared.limits.TheConstants.{MAX_GAME_VERTICES};

use crate::builder::Builder;
use crate::draft::Draft;
use crate::row_range::RowRange;
use crate::size::Size;
use pb_fixpoint_trees::ReadRows;
use pb_game::Game;
use std::alloc::{AllocError, Global};

impl RowRange<'_> {
    /// The vertices of the rows, with room for so many.
    pub(crate) fn draft(self, alloc: Global, room: Size) -> Result<Draft, AllocError>
        requires small { room.vertices ≤ MAX_GAME_VERTICES }
        requires held { AreHeld self.rows.now }
        ensures { IfOk result (HoldsRange self.entry) }
    {
        let mut builder = Builder {
            draft: Draft::with_capacity(alloc, room.vertices, room.edges)?,
            next: self.next,
            targets: Vec::new(alloc),
            starts: Vec::new(alloc),
        };
        let mut level = self.levels.items.len();
        let mut k = self.to;
        while k > self.from {
            builder.make_room(self.rows, k)?;
            k -= 1;
            let priority = self.levels.priority_at(&mut level, self.rows.number(k));
            builder.put_tree(self.numbering, self.rows.tokens(k), priority)?;
        }
        let Builder {
            draft,
            next: _,
            targets: _,
            starts: _,
        } = builder;
        Ok(draft)
    }
}
