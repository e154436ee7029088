//! The vertices of a game in an order that changes as a search moves them.

use crate::arena::Numbers;
use crate::workspace::{item, narrow};
use std::alloc::{AllocError, Global};

/// All vertices, each at a place of its own. They stand by number until one is moved; only then
/// lists of them are made, which many searches do without.
#[derive(Drop)]
pub(crate) struct Permutation {
    length: u32,
    /// The vertex at each place.
    vertices: Vec<u32>,
    /// The place of each vertex.
    places: Numbers,
}

impl Permutation {
    /// So many vertices, by number.
    pub fn identity(alloc: Global, length: u32) -> Permutation {
        Permutation {
            length,
            vertices: Vec::new(alloc),
            places: Numbers::none(alloc),
        }
    }

    /// How many vertices there are.
    #[inline]
    pub fn len(&self) -> usize {
        self.length as usize
    }

    /// The vertex at a place.
    #[inline]
    pub fn vertex(&self, place: usize) -> Option<u32> {
        if !self.vertices.is_empty() {
            return item(&self.vertices, place);
        }
        if place < self.length as usize {
            Some(place as u32)
        } else {
            None
        }
    }

    /// The place of a vertex.
    #[inline]
    pub fn place(&self, v: u32) -> usize {
        if self.vertices.is_empty() {
            v as usize
        } else {
            self.places.get(v) as usize
        }
    }

    /// Changes the places of two vertices.
    #[inline]
    pub fn swap(&mut self, i: usize, j: usize) -> Result<(), AllocError> {
        if i == j {
            return Ok(());
        }
        self.make()?;
        if i < self.vertices.len() && j < self.vertices.len() {
            let (v, u) = (self.vertices[i], self.vertices[j]);
            self.put(i, u)?;
            self.put(j, v)?;
        }
        Ok(())
    }

    /// Puts a vertex at a place.
    #[inline]
    pub fn put(&mut self, place: usize, v: u32) -> Result<(), AllocError> {
        self.make()?;
        if place < self.vertices.len() {
            self.vertices[place] = v;
            self.places.set(v, narrow(place));
        }
        Ok(())
    }

    /// Makes the lists, unless they are there.
    #[inline]
    fn make(&mut self) -> Result<(), AllocError> {
        if self.vertices.is_empty() {
            self.list_by_number()?;
        }
        Ok(())
    }

    /// Lists the vertices by number.
    fn list_by_number(&mut self) -> Result<(), AllocError> {
        self.places.make(self.length as usize)?;
        self.vertices.reserve(self.length as usize)?;
        for v in 0..self.length {
            self.vertices.push(v)?;
            self.places.set(v, v);
        }
        Ok(())
    }
}
