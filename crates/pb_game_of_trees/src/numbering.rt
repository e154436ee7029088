//! The vertices of instances by their numbers.
ghost use Rattle.std.specs.Prelude.{◌≡◌, ◌<◌, ℕ, IfOk, List, length, slice_index};
ghost use Rattle.std.specs.List.Sorted.{IsStrictlyIncreasing};
ghost use Rattle.pb_fixpoint_trees.specs.Rows.{Row as plain_row};
ghost use Rattle.pb_game_of_trees.specs.Held.{Hold};
ghost use Rattle.pb_game_of_trees.specs.Numbering.{numbered_vertex};
ghost use Rattle.pb_game_of_trees.specs.Places.{numbers};

use crate::sorted_vertices::{SortedVertices, numbers_of_rows};
use crate::starts::Starts;
use pb_fixpoint_trees::{IndexedRows, ReadRows};
use pb_game::Game;
use std::alloc::{AllocError, Global};

/// A table of all numbers is made where at least one of so many has a row. It takes a word for each
/// number, of which a part of the instances has few.
const SPARSE: usize = 16;

/// The vertices of instances by their numbers: those of the rows, where each number has a row; else
/// in a table of all numbers, or among those of the rows, in their order.
#[derive(Drop)]
pub(crate) enum Numbering<'a> {
    Dense(&'a [u32]),
    Table(Vec<u32>),
    Sorted(SortedVertices<'a>),
}

impl Numbering<'_> {
    /// The vertex of a number; 0 where no row has it.
    pub(crate) fn vertex(&self, number: u64) -> u32
        ensures { result ≡ numbered_vertex self.now number }
    {
        match self {
            Numbering::Dense(vertices) => vertex_at(vertices, number),
            Numbering::Table(table) => vertex_at(table, number),
            Numbering::Sorted(sorted) => sorted.vertex(number),
        }
    }
}

/// The vertex at a number's place; 0 where there is none.
fn vertex_at(vertices: &[u32], number: u64) -> u32
    ensures { result ≡ slice_index vertices.now number }
{
    vertices.get(number as usize).copied().unwrap_or(0)
}

/// The vertex of each number of a row, and 0 of the others. The numbers are below `count`.
pub(crate) fn number_vertices<'a>(
    alloc: Global,
    rows: &IndexedRows,
    vertices: &'a [u32],
    count: usize,
) -> Result<Numbering<'a>, AllocError>
    requires lengths { length vertices.now ≡ length rows.now }
    requires within { (plain : List plain_row) × Hold rows.now plain
        × IsStrictlyIncreasing (numbers plain)
        × ((k : ℕ) → k < length plain → slice_index (numbers plain) k < count) }
    ensures { IfOk result (λ numbering. (plain : List plain_row) → Hold rows.now plain
        → (k : ℕ) → k < length plain
        → numbered_vertex numbering (slice_index (numbers plain) k)
        ≡ slice_index vertices.now k) }
{
    if rows.len() == count {
        return Ok(Numbering::Dense(vertices));
    }
    if rows.len() < count / SPARSE {
        let numbers = numbers_of_rows(alloc, rows)?;
        let starts = Starts::new(alloc, &numbers)?;
        return Ok(Numbering::Sorted(SortedVertices {
            numbers,
            starts,
            vertices,
        }));
    }
    let mut table = vec![in alloc; 0u32; count]?;
    for k in 0..rows.len() {
        table[rows.number(k) as usize] = vertices[k];
    }
    Ok(Numbering::Table(table))
}
