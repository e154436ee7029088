//! Games of reached instances with their winners.
ghost use Rattle.pb_game.specs.Certificates.{IsCertificate};

use crate::TreeGame;
use pb_strategy::{Certified, Checked};

/// A game of reached instances with its winners, which the checker has certified: nothing but the
/// checker makes what [`Solved::new`] takes.
#[derive(Drop)]
pub struct Solved {
    pub built: TreeGame,
    pub certified: Certified,
    pub ghost certificate: { ∥ IsCertificate built.game certified ∥₁ },
}

impl Solved {
    ghost use Rattle.std.specs.Prelude.{◌≡◌, ◌<◌, ◌↔◌, ℕ, IsTrue, List, Some, length, slice_get};
    ghost use Rattle.pb_fixpoint_trees.specs.Tree.{Tree};
    ghost use Rattle.pb_fixpoint_trees.specs.Equations.{Signature, solved};
    ghost use Rattle.pb_fixpoint_trees.specs.Rows.{Row, IsReached};
    ghost use Rattle.pb_game.specs.Games.{vertex_count};
    ghost use Rattle.pb_game.specs.Solutions.{winner_of};
    ghost use Rattle.pb_fixpoint_trees.specs.declared.player.Player.TheVariants.{Even};
    ghost use Rattle.pb_strategy.specs.Meaning.{IsSolvedAt};
    ghost use Rattle.pb_game_of_trees.specs.TreeGame.{IsTreeGame};

    /// The game with these winners, which the checker has certified for it.
    pub fn new(built: TreeGame, certified: Certified) -> Solved
        requires { IsCertificate built.game certified }
        ensures built { result.built ≡ built }
        ensures certified { result.certified ≡ certified }
    {
        Solved { built, certified }
    }

    /// The winners as a certificate of the game, which the checker has passed.
    pub fn checked(&self) -> Checked<'_>
        ensures game { result.game.now ≡ self.entry.now.built.game }
        ensures solution { result.solution.now ≡ self.entry.now.certified }
    {
        self.certified.checked(&self.built.game)
    }

    /// The truth of the instance whose vertex this is.
    fn truth_at(&self, vertex: u32) -> bool
        requires { vertex < vertex_count self.now.built.game }
        ensures winner { IsTrue result ↔ (winner_of self.now.certified vertex ≡ Even) }
        ensures meaning { IsSolvedAt self.now.built.game vertex result }
    {
        self.checked().truth(vertex)
    }

    /// The truth of the initial instance: whether Even wins its vertex.
    pub fn truth(&self) -> bool
        ensures winner { IsTrue result
            ↔ (winner_of self.now.certified self.now.built.start ≡ Even) }
        ensures meaning { (signatures : List Signature) (trees : ℕ → Tree) (reached : List Row)
            (initial : ℕ) → IsTreeGame signatures trees reached initial self.now.built
            → IsReached reached initial → result ≡ solved signatures trees initial }
    {
        self.truth_at(self.built.start)
    }

    /// The truth of a row's instance.
    pub fn row_truth(&self, k: usize) -> bool
        requires { (signatures : List Signature) × (trees : ℕ → Tree) × (reached : List Row)
            × (initial : ℕ) × IsTreeGame signatures trees reached initial self.now.built
            × (k < length reached) }
        ensures { (signatures : List Signature) (trees : ℕ → Tree) (reached : List Row)
            (initial : ℕ) (row : Row) → IsTreeGame signatures trees reached initial self.now.built
            → slice_get reached k ≡ Some row → result ≡ solved signatures trees row.number }
    {
        self.truth_at(self.built.vertices[k])
    }
}
