//! Which vertices a worker checks.

ghost use Rattle.std.specs.Prelude.{◌≤◌};
ghost use Rattle.pb_game.specs.Games.{vertex_count};
ghost use Rattle.pb_game.specs.Solutions.{HasLengths};

use pb_game::{Game, Solution};

/// The vertices of a game from one number to below another, with a solution whose lists have their
/// lengths.
#[derive(Clone, Copy)]
pub(crate) struct Range<'a> {
    pub game: &'a Game,
    pub solution: &'a Solution,
    pub from: u32,
    pub to: u32,
    pub ghost lengths: { HasLengths game.now solution.now },
    pub ghost rising: { from ≤ to },
    pub ghost inside: { to ≤ vertex_count game.now },
}
