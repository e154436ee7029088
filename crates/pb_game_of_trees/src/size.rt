//! The size of a game, before it is built.
ghost use Rattle.std.specs.Prelude.{◌≡◌, ◌≤◌, ◌<◌, ◌^◌, count_by, length, IfSome, MatchOption};
ghost use Rattle.std.specs.Prelude.{List, slice_index_or};
ghost use Rattle.pb_fixpoint_trees.specs.Rows.{Row as plain_row};
ghost use Rattle.pb_fixpoint_trees.specs.Tree.{Tree};
ghost use Rattle.pb_fixpoint_trees.specs.Tokens.{tree_tokens};
ghost use Rattle.pb_fixpoint_trees.specs.Game.{inner};
ghost use Rattle.pb_fixpoint_trees.specs.Row.{nothing};
ghost use Rattle.pb_game_of_trees.specs.Held.{Hold};
ghost use Rattle.pb_game_of_trees.specs.Places.{vertex_behind, is_closing};
ghost use Rattle.pb_game.specs.declared.limits.TheConstants.{MAX_GAME_VERTICES};

use pb_fixpoint_trees::{IndexedRows, Kind, ReadRows};
use pb_game::Game;

/// A part of a game gets room for one more vertex and edge in so many.
const SPARE: usize = 8;

/// How many vertices a game has, and about how many edges.
#[derive(Clone, Copy)]
pub(crate) struct Size {
    pub vertices: usize,
    pub edges: usize,
}

impl Size {
    /// About the part that so many of the workers build, and some more, since parts differ.
    pub(crate) fn share(self, others: u32, workers: u32) -> Size
        requires { 0 < workers }
        ensures { result.vertices ≤ self.vertices }
    {
        Size {
            vertices: share_of(self.vertices, others, workers).min(self.vertices),
            edges: share_of(self.edges, others, workers),
        }
    }
}

fn share_of(count: usize, others: u32, workers: u32) -> usize
    requires { 0 < workers }
{
    let each = count / workers as usize;
    each.saturating_mul(others as usize)
        .saturating_add(count / SPARE)
}

fn is_closing(kind: Kind) -> bool
    ensures { result ≡ is_closing kind }
{
    match kind {
        Kind::Close => true,
        _ => false,
    }
}

fn count_closing(kinds: &[Kind]) -> usize
    ensures { result ≡ count_by is_closing kinds.now }
{
    kinds.iter().filter(|kind| is_closing(**kind)).count()
}

/// How many tokens the least tree has that has a bracket inside its root.
const LEAST_NESTED: usize = 4;

/// How many brackets there are inside a row's tree. The tokens of a small tree need no look.
pub(crate) fn inner_of(rows: &IndexedRows, k: usize) -> usize
    requires { k < length rows.now }
    ensures inner { (tree : Tree) → (slice_index_or rows.now k nothing).tree ≡ tree_tokens tree
        → result ≡ inner tree }
    ensures bound { result < 2 ^ 32 }
{
    if rows.tree_len(k) < LEAST_NESTED {
        return 0;
    }
    // The root's bracket isn't inside.
    count_closing(rows.tokens(k).kinds()).saturating_sub(1)
}

/// The size of the game of these rows; none where it has more vertices than the limit (G01).
pub(crate) fn size_of(rows: &IndexedRows, limit: usize) -> Option<Size>
    requires sinks { 2 ≤ limit }
    requires few { limit ≤ MAX_GAME_VERTICES }
    ensures size { (plain : List plain_row) → Hold rows.now plain
        → MatchOption result (limit < vertex_behind plain 2)
        (λ size. size.vertices ≡ vertex_behind plain 2) }
    ensures small { IfSome result (λ size. size.vertices ≤ limit) }
{
    let mut vertices = 2;
    let mut edges: usize = 2;
    for k in 0..rows.len() {
        let inner = inner_of(rows, k);
        vertices += inner + 1;
        if vertices > limit {
            return None;
        }
        edges = edges.saturating_add(rows.tree_len(k).saturating_sub(inner + 1).max(1));
    }
    Some(Size { vertices, edges })
}
