//! The vertices of instances, which are searched for by their numbers.
ghost use Rattle.std.specs.Prelude.{◌≡◌, IfOk, length};
ghost use Rattle.std.specs.List.Sorted.{IsStrictlyIncreasing};
ghost use Rattle.pb_fixpoint_trees.specs.Reached.{numbers_of};
ghost use Rattle.pb_game_of_trees.specs.Places.{vertex_in};

use crate::starts::Starts;
use pb_fixpoint_trees::{IndexedRows, ReadRows};
use std::alloc::{AllocError, Global};

/// The numbers of rows, which rise, with the rows' vertices.
#[derive(Drop)]
pub(crate) struct SortedVertices<'a> {
    pub numbers: Vec<u64>,
    pub starts: Starts,
    pub vertices: &'a [u32],
    pub ghost rising: { IsStrictlyIncreasing numbers.items },
    pub ghost sized: { length vertices.now ≡ length numbers.items },
}

impl SortedVertices<'_> {
    /// The vertex of a number; 0 where no row has it.
    pub(crate) fn vertex(&self, number: u64) -> u32
        ensures { result ≡ vertex_in self.now.numbers.items self.now.vertices.now number }
    {
        if let Some(place) = self.starts.find(&self.numbers, number) {
            return self.vertices[place];
        }
        match self.numbers.binary_search(&number) {
            Ok(place) => self.vertices[place],
            Err(_) => 0,
        }
    }
}

pub(crate) fn numbers_of_rows(alloc: Global, rows: &IndexedRows) -> Result<Vec<u64>, AllocError>
    ensures { IfOk result (λ list. list.items ≡ numbers_of rows.now) }
{
    let mut list = Vec::with_capacity(alloc, rows.len())?;
    for k in 0..rows.len() {
        list.push(rows.number(k))?;
    }
    Ok(list)
}
