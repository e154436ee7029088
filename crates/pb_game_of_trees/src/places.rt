//! Where the vertices of rows stand, and how many there are, by one look at each row.
ghost use Rattle.std.specs.Prelude.{◌≡◌, ◌≤◌, ◌<◌, ◌↔◌, Err, IfOk, IfSome, MatchOption, List};
ghost use Rattle.pb_base.specs.declared.or_memory.OrMemory.TheVariants.{Refused};
ghost use Rattle.pb_fixpoint_trees.specs.Rows.{Row as plain_row};
ghost use Rattle.pb_game_of_trees.specs.Held.{Hold};
ghost use Rattle.pb_game_of_trees.specs.Places.{IsSizeOf, ArePlacesOf, vertex_behind, vertices_from};
ghost use Rattle.pb_game.specs.declared.limits.TheConstants.{MAX_GAME_VERTICES};

use crate::size::{Size, inner_of, size_of};
use crate::tree_game::{BuildError, TooManyVertices};
use pb_fixpoint_trees::{IndexedRows, ReadRows, push};
use std::alloc::{AllocError, Global};

/// The vertex of each row, and the size of the game.
#[derive(Drop)]
pub(crate) struct Laid {
    pub size: Size,
    pub vertices: Vec<u32>,
}

/// The vertices of the rows' trees lie side by side, behind the two sinks. None where they are more
/// than the limit (G01).
fn lay_rows(alloc: Global, rows: &IndexedRows, limit: usize) -> Result<Option<Laid>, AllocError>
    requires sinks { 2 ≤ limit }
    requires few { limit ≤ MAX_GAME_VERTICES }
    ensures laid { IfOk result (λ found. (plain : List plain_row) → Hold rows.now plain
        → MatchOption found (limit < vertex_behind plain 2)
        (λ laid. (laid.size.vertices ≡ vertex_behind plain 2)
        × (laid.vertices.items ≡ vertices_from plain 2))) }
    ensures small { IfOk result (λ found. IfSome found
        (λ laid. laid.size.vertices ≤ limit)) }
{
    let mut vertices = Vec::with_capacity(alloc, rows.len())?;
    let mut next = 2;
    let mut edges: usize = 2;
    for k in 0..rows.len() {
        let inner = inner_of(rows, k);
        push(&mut vertices, next as u32)?;
        next += inner + 1;
        if next > limit {
            return Ok(None);
        }
        edges = edges.saturating_add(rows.tree_len(k).saturating_sub(inner + 1).max(1));
    }
    let size = Size {
        vertices: next,
        edges,
    };
    Ok(Some(Laid { size, vertices }))
}

/// The same, with the error of a game that has too many vertices: that is found without the vertex
/// of each row too, where there is no memory for these.
pub(crate) fn laid_rows(alloc: Global, rows: &IndexedRows, limit: usize) -> Result<Laid, BuildError>
    requires sinks { 2 ≤ limit }
    requires few { limit ≤ MAX_GAME_VERTICES }
    ensures size { IfOk result (λ laid. IsSizeOf rows.now laid.size.vertices) }
    ensures vertices { IfOk result (λ laid. ArePlacesOf rows.now laid.vertices.items) }
    ensures small { IfOk result (λ laid. laid.size.vertices ≤ limit) }
    ensures too_many { (plain : List plain_row) → Hold rows.now plain
        → (result ≡ Err (Refused (record {}))) ↔ (limit < vertex_behind plain 2) }
{
    match lay_rows(alloc, rows, limit) {
        Ok(None) => Err(BuildError::Refused(TooManyVertices)),
        Ok(Some(laid)) => Ok(laid),
        Err(AllocError) => match size_of(rows, limit) {
            None => Err(BuildError::Refused(TooManyVertices)),
            Some(_) => Err(BuildError::Memory),
        },
    }
}
