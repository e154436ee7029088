//! What a player concedes: the vertices that the opponent wins by a measure.

ghost use Rattle.std.specs.Prelude.{◌<◌, ◌↔◌, IsTrue, slice_index};
ghost use Rattle.pb_game.specs.Games.{vertex_count};
ghost use Rattle.pb_lifting.specs.Measures.{top_of};
ghost use Rattle.pb_lifting.specs.Seats.{player_at};
ghost use Rattle.pb_lifting.specs.Solutions.{AreMeasured};
ghost use Rattle.pb_lifting.specs.Turns.{IsOpponents};

use crate::measured::Measured;
use crate::ranking::{RankedVertex, Ranking};
use crate::work::{LiftSite, Lifter, TableBrand};
use pb_exploration_words::Gate;

/// Concedes each of the worker's vertices that the opponent wins by a measure, with the gate's
/// calls round it.
pub(crate) fn concede_part<B: TableBrand, G: Gate>(
    site: &LiftSite<'_, B, G>,
    opponents: &Measured,
    lifter: &mut Lifter<B>,
)
    requires { IsOpponents site.now.lifting.now.game.now (player_at site.now.ranks.now)
        opponents.now }
{
    let (first, end) = site.lifting.part(lifter.seat.worker);
    for v in first..end {
        concede_one(site, opponents, lifter, v);
    }
}

/// Concedes a vertex, if the opponent wins it by the measure.
fn concede_one<B: TableBrand, G: Gate>(
    site: &LiftSite<'_, B, G>,
    opponents: &Measured,
    lifter: &mut Lifter<B>,
    v: u32,
)
    requires opponents { IsOpponents site.now.lifting.now.game.now (player_at site.now.ranks.now)
        opponents.now }
    requires vertex { v < vertex_count site.now.lifting.now.game.now }
{
    let game = site.lifting.game;
    let ranks = site.ranks;
    let opponents_vertex = RankedVertex {
        ranking: Ranking {
            game,
            player: ranks.player.opponent(),
            scale: &opponents.scale,
        },
        number: v,
    };
    if !is_won(&opponents_vertex, opponents) {
        return;
    }
    let ranking = Ranking {
        game,
        player: ranks.player,
        scale: &ranks.scale,
    };
    let worker = lifter.seat.worker;
    site.lifting.gate.enter(worker, v as u64);
    ranks.raise(&mut lifter.seat, v, ranking.top());
    site.lifting.gate.answered(worker, v as u64, true);
}

/// Whether a player wins a vertex by its measure.
fn is_won(at: &RankedVertex<'_>, measured: &Measured) -> bool
    requires { AreMeasured at.now.ranking.game.now at.now.ranking.player measured.now }
    ensures { IsTrue result ↔ (slice_index measured.now.words.items at.now.number
        < top_of at.now.ranking.game.now at.now.ranking.player) }
{
    measured.words[at.number as usize] < at.ranking.top()
}
