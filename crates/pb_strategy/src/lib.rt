//! The checker of certificates.
//!
//! [`check`] takes a game and lists that claim to solve it, from whatever solver, and answers with
//! the lists' winners only where they are a certificate: winning regions with strategies and
//! progress measures (Jurdzinski 2000). It takes no memory, and looks at each edge once; which rule
//! fails is looked for at the first vertex alone where one does.
#![tactic(auto)]

mod certified;
mod edges;
mod first_flaw;
pub mod laws;
mod position;
mod range;
mod rules;

ghost use Rattle.std.specs.Prelude.{◌≡◌, ◌<◌, ◌↔◌, IsTrue, IsOk, IfErr, IfOk};
ghost use Rattle.pb_game.specs.Games.{vertex_count};
ghost use Rattle.pb_game.specs.Solutions.{winner_of};
ghost use Rattle.pb_game.specs.Certificates.{IsCertificate};
ghost use Rattle.pb_game.specs.Flaws.{IsFirstFlaw};

pub use certified::{Certified, certify};
use first_flaw::flaw_of;
use pb_game::{Flaw, Game, Player, Solution};
pub use position::Position;

/// A solution that is a certificate of its game, and that the checker has passed: only [`check`]
/// makes one, and [`Certified::checked`] of what [`certify`] has passed. The fields are this
/// crate's own, so that a proof that a solution is a certificate is not enough to write one down.
#[derive(Drop)]
pub struct Checked<'a> {
    pub(crate) game: &'a Game,
    pub(crate) solution: &'a Solution,
    pub ghost certificate: { ∥ IsCertificate game.now solution.now ∥₁ },
}

impl Checked<'_> {
    ghost use Rattle.pb_fixpoint_trees.specs.declared.player.Player.TheVariants.{Even};
    ghost use Rattle.pb_strategy.specs.Meaning.{IsSolvedAt};

    /// The game.
    pub fn game(&self) -> &Game
        ensures { result.now ≡ self.now.game.now }
    {
        self.game
    }

    /// The solution.
    pub fn solution(&self) -> &Solution
        ensures { result.now ≡ self.now.solution.now }
    {
        self.solution
    }

    /// A vertex of the game, with the solution.
    pub fn position(&self, v: u32) -> Position
        requires { v < vertex_count self.now.game.now }
        ensures game { result.game.now ≡ self.now.game.now }
        ensures solution { result.solution.now ≡ self.now.solution.now }
        ensures number { result.number ≡ v }
    {
        Position {
            game: self.game,
            solution: self.solution,
            number: v,
        }
    }

    /// Whether Even wins `v`. Of whatever Boolean equation system the game was built, this is
    /// the truth of the instance whose vertex `v` is (Groote and Willemse 2005).
    pub fn truth(&self, v: u32) -> bool
        requires { v < vertex_count self.now.game.now }
        ensures winner { IsTrue result ↔ (winner_of self.now.solution.now v ≡ Even) }
        ensures meaning { IsSolvedAt self.now.game.now v result }
    {
        self.solution.winner(v) == Player::Even
    }
}

/// The solution as a certificate of the game.
///
/// # Errors
///
/// The least vertex at which a rule fails, with the first such rule, where the solution is no
/// certificate. A list of a wrong length is a flaw (K05) at vertex 0, before all others.
pub fn check<'a>(game: &'a Game, solution: &'a Solution) -> Result<Checked<'a>, Flaw>
    ensures certificate { IsOk result ↔ IsCertificate game.entry.now solution.entry.now }
    ensures flaw { IfErr result
        (λ flaw. IsFirstFlaw game.entry.now solution.entry.now flaw.vertex flaw.rule) }
    ensures same_game { IfOk result (λ checked. checked.game.now ≡ game.entry.now) }
    ensures same_solution { IfOk result (λ checked. checked.solution.now ≡ solution.entry.now) }
{
    match flaw_of(game, solution) {
        Some(flaw) => Err(flaw),
        None => Ok(Checked { game, solution }),
    }
}
