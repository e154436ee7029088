//! Rows of a flat adjacency list.

ghost use Rattle.std.specs.Prelude.{◌≡◌, ◌+◌, ◌<◌, ◌≤◌, length, slice_index};
ghost use Rattle.pb_game.specs.Adjacency.{row};

/// The items of vertex `v`, which stand from its place to below the next one.
pub(crate) fn row_of<'a>(places: &[usize], items: &'a [u32], v: usize) -> &'a [u32]
    requires vertex { v + 1 < length places.now }
    requires ordered { slice_index places.now v ≤ slice_index places.now (v + 1) }
    requires within { slice_index places.now (v + 1) ≤ length items.now }
    ensures { result.now ≡ row places.now items.entry.now v }
{
    &items[places[v]..places[v + 1]]
}
