//! How many vertices the game of a system may have (G01), by which instances count.
ghost use Rattle.std.specs.Prelude.{◌≡◌, ◌≤◌};
ghost use Rattle.pb_game.specs.declared.limits.TheConstants.{MAX_GAME_VERTICES};
ghost use Rattle.pb_game_of_trees.specs.VertexLimit.{vertex_limit};

use pb_base::MAX_VERTICES;
use pb_game::MAX_GAME_VERTICES;
use pb_sorts::Counting;

/// How many vertices the game of a system may have: 2^24 where its declared instances count, and
/// as many as any game, 2^30, where those alone count that are reached. There is always room for
/// the two sinks.
pub fn vertex_limit(counting: Counting) -> usize
    ensures limit { result ≡ vertex_limit counting }
    ensures sinks { 2 ≤ result }
    ensures small { result ≤ MAX_GAME_VERTICES }
{
    match counting {
        Counting::Declared => MAX_VERTICES,
        Counting::Reached => MAX_GAME_VERTICES,
    }
}
