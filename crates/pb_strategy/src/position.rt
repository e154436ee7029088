//! A vertex of a game, with a solution of it: what a certificate's rules are tested at.

ghost use Rattle.std.specs.Prelude.{◌≡◌, ◌<◌, ◌↔◌, IsTrue};
ghost use Rattle.pb_game.specs.Games.{vertex_count, owner_of};
ghost use Rattle.pb_game.specs.Solutions.{winner_of, choice_of, HasLengths};

use pb_game::{Game, Solution};

/// A vertex of a game, with a solution of the game whose lists have their lengths.
#[derive(Clone, Copy)]
pub struct Position<'a> {
    pub game: &'a Game,
    pub solution: &'a Solution,
    pub number: u32,
    pub ghost lengths: { HasLengths game.now solution.now },
    pub ghost inside: { number < vertex_count game.now },
}

impl Position<'_> {
    /// Whether its winner keeps the edge from it to `u`.
    pub fn keeps(&self, u: u32) -> bool
        ensures { IsTrue result ↔ (owner_of self.now.game.now self.now.number
            ≡ winner_of self.now.solution.now self.now.number
            → choice_of self.now.solution.now self.now.number ≡ u) }
    {
        self.game.owner(self.number) != self.solution.winner(self.number)
            || self.solution.choice(self.number) == u
    }
}
