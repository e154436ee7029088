//! The vertices of rows, which one worker builds, or several, each for a part of the rows.
//!
//! Where the vertices of each row begin is known before, so the parts are built side by side, and
//! then put together in order: what the workers do changes nothing of them.
ghost use Rattle.std.specs.Prelude.{◌≡◌, ◌∷◌, ◌++◌, ◌≤◌, ◌<◌, IfOk, List, length};
ghost use denote.Param.Send.{IsSync};
ghost use Rattle.pb_fixpoint_trees.specs.Rows.{Row as plain_row};
ghost use Rattle.pb_fixpoint_trees.specs.Game.{Vertex, row_vertices, false_sink, true_sink};
ghost use Rattle.pb_game_of_trees.specs.Held.{Hold};
ghost use Rattle.pb_game_of_trees.specs.Draft.{IsDraft};
ghost use Rattle.pb_game_of_trees.specs.Levels.{priority_in};
ghost use Rattle.pb_game_of_trees.specs.Numbering.{numbered_vertex};
ghost use Rattle.pb_game_of_trees.specs.RowRanges.{AreHeld, HoldsRange, IsPartOfRows};
ghost use Rattle.pb_game.specs.declared.limits.TheConstants.{MAX_GAME_VERTICES};

use crate::crew::Crew;
use crate::draft::Draft;
use crate::row_range::RowRange;
use crate::size::Size;
use pb_game::{Game, Player};
use std::alloc::{AllocError, Global};
use std::thread::{Threads, join};

/// Of fewer rows than so many one worker takes no longer than several, with the threads that these
/// need.
const FEW: usize = 4096;

/// The game's vertices: two sinks, and those of all rows.
pub(crate) fn draft_of<R: Threads + Sync>(
    crew: &Crew<'_, R>,
    rows: RowRange<'_>,
    size: Size,
) -> Result<Draft, AllocError>
    requires small { size.vertices ≤ MAX_GAME_VERTICES }
    requires held { AreHeld rows.rows.now }
    requires first { rows.from ≡ 0 }
    requires last { rows.to ≡ length rows.rows.now }
    ensures { IfOk result (λ draft. (plain : List plain_row) → Hold rows.entry.rows.now plain
        → IsDraft draft
        (false_sink ∷ (true_sink ∷ row_vertices (numbered_vertex rows.entry.numbering.now)
        (priority_in rows.entry.levels.now.items.items) plain 2))) }
{
    let mut draft = rows.draft_by(crew.rt, crew.alloc, size, crew.workers)?;
    draft.put(Player::Even, 0, &mut [1])?;
    draft.put(Player::Even, 1, &mut [0])?;
    Ok(draft)
}

impl RowRange<'_> {
    /// The rows before one of them, and those from it on.
    fn split_at(self, middle: usize) -> (Self, Self)
        requires from { self.from ≤ middle }
        requires to { middle < self.to }
        ensures low { IsPartOfRows self.entry result.0 self.entry.from middle }
        ensures high { IsPartOfRows self.entry result.1 middle self.entry.to }
    {
        let RowRange {
            levels,
            numbering,
            rows,
            vertices,
            from,
            to,
            next,
            ..
        } = self;
        let low = RowRange {
            levels,
            numbering,
            rows,
            vertices,
            from,
            to: middle,
            next: vertices[middle],
        };
        let high = RowRange {
            levels,
            numbering,
            rows,
            vertices,
            from: middle,
            to,
            next,
        };
        (low, high)
    }

    /// The vertices of the rows, by so many workers, which go on one after another where no threads
    /// can be made. The last part has room for all, so that it need not move.
    #[cycle(parts)]
    fn draft_by<R: Threads + Sync>(
        self,
        rt: &R,
        alloc: Global,
        room: Size,
        workers: u32,
    ) -> Result<Draft, AllocError>
        requires small { room.vertices ≤ MAX_GAME_VERTICES }
        requires held { AreHeld self.rows.now }
        ensures { IfOk result (HoldsRange self.entry) }
    {
        let count = self.to - self.from;
        if workers < 2 || count < FEW {
            return self.draft(alloc, room);
        }
        let others = workers / 2;
        let rest = workers - others;
        let share = room.share(others, workers);
        let (low, high) = self.split_at(self.from + count / workers as usize * others as usize);
        let front = move || -> Result<Draft, AllocError>
            requires { IsSync R.row × (share.vertices ≤ MAX_GAME_VERTICES) × AreHeld low.rows.now }
            ensures { IfOk result (HoldsRange low.entry) }
        { low.draft_by(rt, alloc, share, others) };
        let back = move || -> Result<Draft, AllocError>
            requires { IsSync R.row × (room.vertices ≤ MAX_GAME_VERTICES) × AreHeld high.rows.now }
            ensures { IfOk result (HoldsRange high.entry) }
        { high.draft_by(rt, alloc, room, rest) };
        let (first, second) = join(rt, front, back);
        joined(first, second)
    }
}

/// The vertices of two parts of a range, of which the one comes before the other.
fn joined(
    first: Result<Draft, AllocError>,
    second: Result<Draft, AllocError>,
) -> Result<Draft, AllocError>
    requires { IfOk first (λ draft. (vertices : List Vertex) × IsDraft draft vertices) }
    ensures { IfOk result (λ draft. (vertices others : List Vertex)
        → IfOk first (λ part. IsDraft part vertices) → IfOk second (λ part. IsDraft part others)
        → IsDraft draft (vertices ++ others)) }
{
    let before = first?;
    let mut draft = second?;
    draft.append(before)?;
    Ok(draft)
}
