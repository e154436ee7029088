//! Vertices that a player loses whatever is known of the others.

ghost use Rattle.std.specs.Prelude.{◌≤◌, IsTrue};
ghost use Rattle.pb_lifting.specs.Measures.{top_of, IsWithinAll};

use crate::ranking::RankedVertex;

/// Whether a vertex leads to itself alone and has a priority that the player loses with. A rank
/// would have to fall along that edge, so every measure has top there. The sinks of a game are such
/// vertices, one for each player.
fn is_lost_loop(at: &RankedVertex<'_>) -> bool
    ensures { IsTrue result → IsWithinAll at.now.ranking.game.now at.now.ranking.player
        at.now.number (top_of at.now.ranking.game.now at.now.ranking.player) }
{
    let game = at.ranking.game;
    if game.priority(at.number) % 2 == at.ranking.player.parity() {
        return false;
    }
    match game.successors(at.number) {
        [only] => *only == at.number,
        _ => false,
    }
}

/// What a lift raises the word of `v` to: the least rank over what its successors have reached, and
/// top at once where the vertex is lost by itself. There that rank is only one above the word's, so
/// that as many lifts as there are ranks would lead to top.
pub(crate) fn justified_rank(at: &RankedVertex<'_>, least: u64) -> u64
    requires { IsWithinAll at.now.ranking.game.now at.now.ranking.player at.now.number least }
    ensures least { least ≤ result }
    ensures within { IsWithinAll at.now.ranking.game.now at.now.ranking.player at.now.number
        result }
{
    if is_lost_loop(at) {
        return at.ranking.top();
    }
    least
}
