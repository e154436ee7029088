//! Lists of vertices by priority that take no memory as they grow.

use crate::arena::Numbers;
use std::alloc::{AllocError, Global};

/// Lists of vertices, one for each priority; a vertex is in one of them at most. Each keeps its
/// first and last vertex, and each vertex the next one, by numbers that are one too great, so that
/// 0 ends a list.
#[derive(Drop)]
pub(crate) struct Chains {
    first: Numbers,
    last: Numbers,
    next: Numbers,
}

impl Chains {
    pub fn new(alloc: Global, vertices: usize, priorities: usize) -> Result<Chains, AllocError> {
        Ok(Chains {
            first: Numbers::new(alloc, priorities)?,
            last: Numbers::new(alloc, priorities)?,
            next: Numbers::new(alloc, vertices)?,
        })
    }

    /// Puts a vertex behind all others of a priority.
    pub fn push(&mut self, p: u32, v: u32) {
        let link = v.saturating_add(1);
        self.next.set(v, 0);
        match self.last.get(p).checked_sub(1) {
            Some(last) => self.next.set(last, link),
            None => self.first.set(p, link),
        }
        self.last.set(p, link);
    }

    /// The first vertex of a priority.
    pub fn first(&self, p: u32) -> Option<u32> {
        self.first.get(p).checked_sub(1)
    }

    /// The vertex behind `v`.
    pub fn after(&self, v: u32) -> Option<u32> {
        self.next.get(v).checked_sub(1)
    }

    pub fn clear(&mut self, p: u32) {
        self.first.set(p, 0);
        self.last.set(p, 0);
    }
}
