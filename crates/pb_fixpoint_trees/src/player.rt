//! The two players of a parity game.

ghost use Rattle.std.specs.Prelude.{◌≡◌, ◌%◌};
ghost use Rattle.pb_fixpoint_trees.specs.Players.{parity_of, opponent_of};

/// A player, by the parity of the priorities that it wins with (Zielonka 1998).
#[derive(Clone, Copy, PartialEq, Eq)]
pub enum Player {
    Even,
    Odd,
}

impl Player {
    /// The player who wins with this priority.
    pub fn of_priority(priority: u32) -> Player
        ensures { parity_of result ≡ priority % 2 }
    {
        if priority % 2 == 0 {
            Player::Even
        } else {
            Player::Odd
        }
    }

    /// The other player.
    pub fn opponent(self) -> Player
        ensures { result ≡ opponent_of self }
    {
        match self {
            Player::Even => Player::Odd,
            Player::Odd => Player::Even,
        }
    }

    /// The parity of the priorities that it wins with, 0 or 1: its number in print.
    pub fn parity(self) -> u32
        ensures { result ≡ parity_of self }
    {
        match self {
            Player::Even => 0,
            Player::Odd => 1,
        }
    }
}
