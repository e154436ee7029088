//! The game and the lists of a search, read and written by tests in place of proofs: nothing is
//! claimed of a search but that it is safe and ends, and what it finds is checked.

use pb_game::{Game, Player, Solution};
use std::alloc::{AllocError, Global};

/// The successors of `v`; none where it is no vertex.
#[inline]
pub(crate) fn successors(game: &Game, v: u32) -> &[u32] {
    if v < game.len() {
        game.successors(v)
    } else {
        &[]
    }
}

/// The predecessors of `v`; none where it is no vertex.
#[inline]
pub(crate) fn predecessors(game: &Game, v: u32) -> &[u32] {
    if v < game.len() {
        game.predecessors(v)
    } else {
        &[]
    }
}

#[inline]
pub(crate) fn owner(game: &Game, v: u32) -> Player {
    if v < game.len() {
        game.owner(v)
    } else {
        Player::Even
    }
}

#[inline]
pub(crate) fn priority(game: &Game, v: u32) -> u32 {
    if v < game.len() { game.priority(v) } else { 0 }
}

/// A number for each vertex, at first 0. What is no vertex has the number 0, and keeps it.
#[derive(Drop)]
pub(crate) struct Numbers {
    items: Vec<u32>,
}

impl Numbers {
    pub fn new(alloc: Global, length: usize) -> Result<Numbers, AllocError> {
        let items = vec![in alloc; 0u32; length]?;
        Ok(Numbers { items })
    }

    /// No table yet: all numbers are 0 until one is made.
    pub fn none(alloc: Global) -> Numbers {
        Numbers {
            items: Vec::new(alloc),
        }
    }

    /// Makes the table of so many vertices, unless it is there.
    #[inline]
    pub fn make(&mut self, length: usize) -> Result<(), AllocError> {
        if self.items.is_empty() {
            self.items.resize(length, 0)?;
        }
        Ok(())
    }

    #[inline]
    pub fn get(&self, v: u32) -> u32 {
        if (v as usize) < self.items.len() {
            self.items[v as usize]
        } else {
            0
        }
    }

    #[inline]
    pub fn set(&mut self, v: u32, number: u32) {
        if (v as usize) < self.items.len() {
            self.items[v as usize] = number;
        }
    }
}

/// The solution that a search writes.
#[derive(Drop)]
pub(crate) struct Draft {
    pub solution: Solution,
    /// How many counts a vertex has.
    pub width: u32,
}

impl Draft {
    /// Even wins all vertices, and all counts are 0.
    pub fn new(alloc: Global, game: &Game) -> Result<Draft, AllocError> {
        let vertices = game.len() as usize;
        let width = game.greatest_priority().saturating_add(1);
        let solution = Solution {
            winner: vec![in alloc; Player::Even; vertices]?,
            choice: vec![in alloc; 0u32; vertices]?,
            counts: vec![in alloc; 0u64; vertices.saturating_mul(width as usize)]?,
        };
        Ok(Draft { solution, width })
    }

    #[inline]
    pub fn winner(&self, v: u32) -> Player {
        let winner = &self.solution.winner;
        if (v as usize) < winner.len() {
            winner[v as usize]
        } else {
            Player::Even
        }
    }

    #[inline]
    pub fn set_winner(&mut self, v: u32, player: Player) {
        let winner = &mut self.solution.winner;
        if (v as usize) < winner.len() {
            winner[v as usize] = player;
        }
    }

    #[inline]
    pub fn choice(&self, v: u32) -> u32 {
        let choice = &self.solution.choice;
        if (v as usize) < choice.len() {
            choice[v as usize]
        } else {
            0
        }
    }

    #[inline]
    pub fn set_choice(&mut self, v: u32, u: u32) {
        let choice = &mut self.solution.choice;
        if (v as usize) < choice.len() {
            choice[v as usize] = u;
        }
    }

    #[inline]
    fn place(&self, v: u32, priority: u32) -> usize {
        (v as usize)
            .wrapping_mul(self.width as usize)
            .wrapping_add(priority as usize)
    }

    /// The count of `v` at a priority, 0 where there is no such priority.
    #[inline]
    pub fn count(&self, v: u32, priority: Option<u32>) -> u64 {
        let Some(priority) = priority else { return 0 };
        let place = self.place(v, priority);
        let counts = &self.solution.counts;
        if place < counts.len() {
            counts[place]
        } else {
            0
        }
    }

    /// Sets the count of `v` at a priority, if there is such a priority.
    #[inline]
    pub fn set_count(&mut self, v: u32, priority: Option<u32>, count: u64) {
        let Some(priority) = priority else { return };
        let place = self.place(v, priority);
        let counts = &mut self.solution.counts;
        if place < counts.len() {
            counts[place] = count;
        }
    }
}
