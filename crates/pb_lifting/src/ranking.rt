//! How a player's ranks are counted in a game, and a vertex that one is asked for.

ghost use Rattle.std.specs.Prelude.{◌≡◌, ◌<◌};
ghost use Rattle.pb_game.specs.Games.{vertex_count, priority_count};
ghost use Rattle.pb_lifting.specs.Scales.{IsScaleOf};
ghost use Rattle.pb_lifting.specs.Measures.{top_of, asked, counts_of};

use crate::scale::{Scale, step, width};
use pb_game::{Game, Player};

/// A player's ranks in a game, with their scale.
#[derive(Clone, Copy)]
pub(crate) struct Ranking<'a> {
    pub game: &'a Game,
    pub player: Player,
    pub scale: &'a Scale,
    pub ghost scale_of: { IsScaleOf game.now player scale.now },
}

impl<'a> Ranking<'a> {
    /// The rank above all others, of a vertex that the player does not win.
    pub(crate) fn top(&self) -> u64
        ensures { result ≡ top_of self.now.game.now self.now.player }
    {
        self.scale.at(width(self.game))
    }

    /// The count of a rank at a priority.
    pub(crate) fn count(&self, rank: u64, priority: u32) -> u64
        requires priority { priority < priority_count self.now.game.now }
        ensures { result ≡ counts_of self.now.game.now self.now.player rank priority }
    {
        let place = self.scale.at(priority as usize);
        let above = self.scale.at(priority as usize + 1);
        rank % above / place
    }
}

/// A vertex of the game, whose rank is asked for.
#[derive(Clone, Copy)]
pub(crate) struct RankedVertex<'a> {
    pub ranking: Ranking<'a>,
    pub number: u32,
    pub ghost inside: { number < vertex_count ranking.game.now },
}

impl<'a> RankedVertex<'a> {
    /// Its least rank on an edge to a vertex of this rank.
    pub(crate) fn asked(&self, rank: u64) -> u64
        ensures { result
            ≡ asked self.now.ranking.game.now self.now.ranking.player self.now.number rank }
    {
        let priority = self.ranking.game.priority(self.number);
        let more = if priority % 2 == self.ranking.player.parity() {
            0
        } else {
            1
        };
        let place = self.ranking.scale.at(priority as usize);
        let top = self.ranking.top();
        step(place, top, more, rank)
    }
}
