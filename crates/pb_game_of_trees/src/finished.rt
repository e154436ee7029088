//! The game of flat lists.
ghost use Rattle.std.specs.Prelude.{IfOk, List};
ghost use Rattle.pb_fixpoint_trees.specs.Game.{Vertex};
ghost use Rattle.pb_strategy.specs.Vertices.{HasVertices};
ghost use Rattle.pb_game_of_trees.specs.Draft.{ArePartsOf, MakeGame};

use pb_game::{Game, Parts};
use std::alloc::{AllocError, Global};

/// The game of parts that stand for the vertices of a game.
pub(crate) fn game_of(alloc: Global, parts: Parts) -> Result<Game, AllocError>
    requires { (vertices : List Vertex) × ArePartsOf parts vertices × MakeGame vertices }
    ensures { IfOk result (λ game. (vertices : List Vertex) → ArePartsOf parts vertices
        → HasVertices game vertices) }
{
    Game::of_parts(alloc, parts)
}
