//! How many vertices have each priority.
//!
//! The ranks of both players rest on these counts, and one pass over the vertices makes them. They
//! ask for no memory: whether there are too many ranks is told even where memory is refused.

ghost use Rattle.pb_lifting.specs.Scales.{AreCountsOf};

use pb_base::MAX_PRIORITIES;
use pb_game::Game;

/// How many vertices have each priority.
#[derive(Drop)]
pub(crate) struct PriorityCounts {
    pub vertices: [u32; MAX_PRIORITIES],
}

impl PriorityCounts {
    /// Counts the vertices of a game, each once.
    pub(crate) fn of(game: &Game) -> PriorityCounts
        ensures { AreCountsOf game.now result }
    {
        let mut vertices = [0u32; MAX_PRIORITIES];
        for v in 0..game.len() {
            vertices[game.priority(v) as usize] += 1;
        }
        PriorityCounts { vertices }
    }
}
