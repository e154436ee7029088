//! What a search may cost, and why it stops before it has a solution.

use pb_game::Game;
use std::alloc::{AllocError, AllocFailed};

/// Why a search stops without a solution.
#[derive(Clone, Copy, PartialEq, Eq)]
pub(crate) enum Stop {
    /// Its budget is spent, or it met what no run of the algorithm does.
    GaveUp,
    Memory,
}

impl From<AllocError> for Stop {
    fn from(_: AllocError) -> Stop {
        Stop::Memory
    }
}

impl<T: Drop> From<AllocFailed<T>> for Stop {
    fn from(_: AllocFailed<T>) -> Stop {
        Stop::Memory
    }
}

/// How often a search may still look at a vertex of a list or at an edge.
#[derive(Clone, Copy)]
pub(crate) struct Budget {
    looks: usize,
}

impl Budget {
    /// So many looks for each vertex and each edge of the game, and some more, which small games
    /// need.
    pub fn new(game: &Game, each: usize, more: usize) -> Budget {
        let mut size = game.len() as usize;
        for v in 0..game.len() {
            size = size.saturating_add(game.successors(v).len());
        }
        Budget {
            looks: size.saturating_mul(each).saturating_add(more),
        }
    }

    /// Takes these looks, for which a vertex or list is still to be paid.
    #[inline]
    pub fn pass(&mut self, looks: usize) -> Result<(), Stop> {
        if self.looks <= looks {
            return Err(Stop::GaveUp);
        }
        self.looks -= looks;
        Ok(())
    }

    /// Takes these looks, and one more for the vertex or list that they belong to.
    #[inline]
    pub fn spend(&mut self, looks: usize) -> Result<(), Stop> {
        if self.looks <= looks {
            return Err(Stop::GaveUp);
        }
        self.looks -= looks;
        self.looks -= 1;
        Ok(())
    }
}
