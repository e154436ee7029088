//! Whose vertices a worker builds.
ghost use Rattle.std.specs.Prelude.{◌≡◌, ◌≤◌, length};
ghost use Rattle.pb_game_of_trees.specs.Places.{ArePlacesOf, IsBehind};

use crate::levels::Levels;
use crate::numbering::Numbering;
use pb_fixpoint_trees::IndexedRows;

/// The rows from one place to below another, with what their vertices are built from.
#[derive(Clone, Copy)]
pub(crate) struct RowRange<'a> {
    pub levels: &'a Levels,
    pub numbering: &'a Numbering<'a>,
    /// All rows.
    pub rows: &'a IndexedRows,
    /// The vertex of each of them.
    pub vertices: &'a [u32],
    pub from: usize,
    pub to: usize,
    /// The vertex behind those of the range.
    pub next: u32,
    pub ghost rising: { from ≤ to },
    pub ghost inside: { to ≤ length rows.now },
    pub ghost sized: { length vertices.now ≡ length rows.now },
    pub ghost placed: { ArePlacesOf rows.now vertices.now },
    pub ghost behind: { IsBehind rows.now to next },
}
