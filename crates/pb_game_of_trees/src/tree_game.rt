//! The game of a system's reached instances.
ghost use Rattle.std.specs.Prelude.{◌≡◌, ◌≤◌, ◌<◌, All, vec_len};
ghost use Rattle.pb_game.specs.declared.limits.TheConstants.{MAX_GAME_VERTICES};
ghost use Rattle.pb_game.specs.Games.{vertex_count};

use crate::crew::Crew;
use crate::drafted::DraftedGame;
use crate::signatures::Signatures;
use pb_base::{Fault, OrMemory};
use pb_fixpoint_trees::IndexedRows;
use pb_game::Game;
use pb_sorts::Counting;
use std::fmt;
use std::thread::Threads;

/// The game would have more vertices than it may have: than 2^24 where declared instances count,
/// and than 2^30 where those that are reached count. It shows as `G01`.
#[derive(Clone, Copy, Debug, PartialEq, Eq)]
pub struct TooManyVertices;

impl Fault for TooManyVertices {}

/// Why no game was built: it would have too many vertices, or memory was refused.
pub type BuildError = OrMemory<TooManyVertices>;

impl fmt::Display for TooManyVertices {
    ghost use Rattle.std.specs.Prelude.{Some, codes};

    ghost output = { λ _. Some (codes "G01") };

    fn fmt<W: fmt::Write>(&self, f: &mut fmt::Formatter<W>) -> fmt::Result {
        f.write_str("G01")
    }
}

/// The game of the reached instances of a system, with the vertices of the instances.
#[derive(Drop)]
pub struct TreeGame {
    pub game: Game,
    /// The vertex of each row.
    pub vertices: Vec<u32>,
    /// The vertex of the initial instance.
    pub start: u32,
    pub ghost few: { vec_len vertices ≤ MAX_GAME_VERTICES },
    pub ghost inside: { start < vertex_count game },
    pub ghost rows_inside: { All (λ v. v < vertex_count game) vertices.items },
}

impl TreeGame {
    ghost use Rattle.std.specs.Prelude.{IfOk, length};
    ghost use Rattle.pb_game_of_trees.specs.Equations.{equations_of};
    ghost use Rattle.pb_game_of_trees.specs.TreeGame.{RowsHaveTrees, KeepsVertexLimit, IsGameOf};
    ghost use Rattle.pb_game_of_trees.specs.TreeGame.{IsRefusedExactly};

    /// The game of the reached instances of these equations, where `initial` is one of them. How
    /// many vertices it has is found before the game is made: with the vertex of each row, or
    /// without, where there is no memory for these. What the workers do changes nothing of it.
    ///
    /// # Errors
    /// `TooManyVertices` exactly where there would be more than `vertex_limit` has, by which
    /// instances count; else `Memory`.
    pub fn build<R: Threads + Sync>(
        crew: &Crew<'_, R>,
        signatures: &Signatures,
        rows: &IndexedRows,
        initial: u64,
        counting: Counting,
    ) -> Result<TreeGame, BuildError>
        requires { RowsHaveTrees (equations_of signatures.now.items.items) rows.now initial }
        ensures game { IfOk result
            (IsGameOf (equations_of signatures.now.items.items) rows.now initial) }
        ensures few { IfOk result (KeepsVertexLimit counting) }
        ensures too_many { IsRefusedExactly counting result
            (equations_of signatures.now.items.items) rows.now }
    {
        let drafted = DraftedGame::of_rows(crew, signatures, rows, initial, counting)?;
        let built = drafted.finish(crew.alloc)?;
        Ok(built)
    }

    /// How many vertices the game has.
    pub fn len(&self) -> u32
        ensures { result ≡ vertex_count self.now.game }
    {
        self.game.len()
    }

    /// How many reached instances there are.
    pub fn instances(&self) -> u32
        ensures { result ≡ length self.now.vertices.items }
    {
        self.vertices.len() as u32
    }
}
