//! Solutions that have been through the checker: whoever holds one knows that it ran, and needs no
//! second run.

ghost use Rattle.std.specs.Prelude.{◌≡◌, ◌↔◌, IsOk, IfErr, IfOk};
ghost use Rattle.pb_game.specs.Certificates.{IsCertificate};
ghost use Rattle.pb_game.specs.Flaws.{IsFirstFlaw};

use crate::Checked;
use crate::first_flaw::flaw_by;
use pb_game::{Flaw, Game, Solution};
use std::marker::Model;
use std::thread::Threads;

/// A solution that the checker has certified for a game. Only [`certify`] makes one. Contracts see
/// the solution.
#[derive(Drop)]
pub struct Certified {
    solution: Solution,
}

impl Model for Certified {
    ghost use Rattle.pb_game.specs.declared.certificate.Solution.{Solution};

    ghost Value = { Solution };

    ghost view = { λ certified. certified.solution };
}

impl Certified {
    /// The solution.
    pub fn solution(&self) -> &Solution
        ensures { result.now ≡ self.now }
    {
        &self.solution
    }

    /// The solution with a game of which it is a certificate. The checker isn't run again.
    pub fn checked<'a>(&'a self, game: &'a Game) -> Checked<'a>
        requires { ∥ IsCertificate game.now self.now ∥₁ }
        ensures game { result.game.now ≡ game.entry.now }
        ensures solution { result.solution.now ≡ self.entry.now }
    {
        Checked {
            game,
            solution: &self.solution,
        }
    }
}

/// Runs the checker on a solution, by so many workers, and keeps it where it is a certificate of
/// the game. What the workers do changes nothing of the answer.
///
/// # Errors
///
/// The solution with its first flaw, where it is no certificate.
pub fn certify<R: Threads + Sync>(
    rt: &R,
    workers: u32,
    game: &Game,
    solution: Solution,
) -> Result<Certified, (Solution, Flaw)>
    ensures certificate { IsOk result ↔ IsCertificate game.now solution }
    ensures kept { IfOk result (λ certified. certified ≡ solution) }
    ensures handed_back { IfErr result (λ refused. refused.0 ≡ solution) }
    ensures flaw { IfErr result
        (λ refused. IsFirstFlaw game.now solution refused.1.vertex refused.1.rule) }
{
    match flaw_by(rt, workers, game, &solution) {
        None => Ok(Certified { solution }),
        Some(flaw) => Err((solution, flaw)),
    }
}
