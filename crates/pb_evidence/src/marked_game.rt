//! A checked solution of a game, with marks at the vertices of instances: over the others, those of
//! brackets, a play goes on to an instance's.

ghost use Rattle.std.specs.Prelude.{◌≡◌, length};
ghost use Rattle.pb_game.specs.Games.{vertex_count};

use pb_strategy::Checked;

/// A checked solution of a game, and for each vertex of the game whether it is an instance's.
#[derive(Clone, Copy)]
pub(crate) struct MarkedGame<'a> {
    pub checked: &'a Checked<'a>,
    pub marks: &'a [bool],
    pub ghost marked: { length marks.now ≡ vertex_count checked.now.game.now },
}
