//! Where the vertices of instances stand in a game.

ghost use Rattle.std.specs.Prelude.{◌≡◌, ◌<◌, ℕ, IfOk, length, slice_index};
ghost use Rattle.pb_report.specs.VertexNames.{AreRising};

use pb_fixpoint_trees::{IndexedRows, ReadRows};
use std::alloc::{AllocError, Global};

/// A mark and a number for each vertex of a game: marks stand at the vertices of instances, whose
/// numbers are beside them.
#[derive(Drop)]
pub(crate) struct InstanceMarks {
    pub marks: Vec<bool>,
    pub numbers: Vec<u64>,
}

impl InstanceMarks {
    ghost use Rattle.pb_report.specs.InstanceMarks.{AreMarked};

    /// Of `count` vertices those of the rows' instances are marked.
    pub(crate) fn new(
        alloc: Global,
        count: u32,
        vertices: &[u32],
        rows: &IndexedRows,
    ) -> Result<InstanceMarks, AllocError>
        requires lengths { length vertices.now ≡ length rows.now }
        requires within { (k : ℕ) → k < length vertices.now → slice_index vertices.now k < count }
        requires rising { AreRising vertices.now }
        ensures marks { IfOk result (λ x. length x.marks.items ≡ count) }
        ensures numbers { IfOk result (λ x. length x.numbers.items ≡ count) }
        ensures marked { IfOk result (λ x. AreMarked vertices.now rows.now
            (length rows.now) x.marks.items x.numbers.items) }
    {
        let mut marks = vec![in alloc; false; count as usize]?;
        let mut numbers = vec![in alloc; 0u64; count as usize]?;
        for k in 0..rows.len() {
            let vertex = vertices[k] as usize;
            marks[vertex] = true;
            numbers[vertex] = rows.number(k);
        }
        Ok(InstanceMarks { marks, numbers })
    }
}
