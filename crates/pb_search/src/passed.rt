//! What searches for ways out remember of each vertex, so that none looks at a successor twice.

use std::alloc::{AllocError, Global};

/// How many of a vertex's first successors are outside of the region of a stamp.
#[derive(Clone, Copy)]
struct Entry {
    stamp: u32,
    count: u32,
}

/// How many of each vertex's first successors are known to be outside of a region, as long as none
/// of them comes back. The table is made when a search first passes over a successor.
#[derive(Drop)]
pub(crate) struct Passed {
    vertices: usize,
    entries: Vec<Entry>,
}

impl Passed {
    pub fn none(alloc: Global, vertices: usize) -> Passed {
        Passed {
            vertices,
            entries: Vec::new(alloc),
        }
    }

    /// How many are known to be outside of the region of this stamp.
    #[inline]
    pub fn get(&self, v: u32, stamp: u32) -> u32 {
        if self.entries.len() <= v as usize {
            return 0;
        }
        let entry = self.entries[v as usize];
        if entry.stamp == stamp { entry.count } else { 0 }
    }

    /// Notes how many are outside of the region of this stamp.
    #[inline]
    pub fn set(&mut self, v: u32, stamp: u32, count: u32) -> Result<(), AllocError> {
        if self.entries.is_empty() {
            self.make()?;
        }
        if (v as usize) < self.entries.len() {
            self.entries[v as usize] = Entry { stamp, count };
        }
        Ok(())
    }

    fn make(&mut self) -> Result<(), AllocError> {
        let none = Entry { stamp: 0, count: 0 };
        self.entries.resize(self.vertices, none)?;
        Ok(())
    }
}
