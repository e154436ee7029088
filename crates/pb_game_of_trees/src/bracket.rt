//! What a bracket of a tree is in the game: whose vertex, and which sink where it is empty.
ghost use Rattle.std.specs.Prelude.{◌≡◌};
ghost use Rattle.pb_fixpoint_trees.specs.Game.{owner_of, sink_of};

use pb_fixpoint_trees::Junction;
use pb_game::Player;

/// The player who chooses among the operands.
pub(crate) fn owner(bracket: Junction) -> Player
    ensures { result ≡ owner_of bracket }
{
    match bracket {
        Junction::Conjunction => Player::Odd,
        Junction::Disjunction => Player::Even,
    }
}

/// Where a bracket without operands leads.
pub(crate) fn sink(bracket: Junction) -> u32
    ensures { result ≡ sink_of bracket }
{
    match bracket {
        Junction::Conjunction => 1,
        Junction::Disjunction => 0,
    }
}
