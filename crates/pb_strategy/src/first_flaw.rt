//! The first flaw of a range of vertices, which one worker looks for, or several, each in a part of
//! it.
//!
//! Each vertex is tested by itself, and what is tested changes meanwhile for nobody, so whatever
//! the workers do the first flaw of a range is that of its first half, or else that of its second.

ghost use Rattle.std.specs.Prelude.{◌≡◌, ◌*◌, ◌≤◌, ◌<◌, ◌↔◌, length, IsTrue, IfErr, IfOk};
ghost use denote.Param.Send.{IsSync};
ghost use Rattle.pb_game.specs.Games.{vertex_count, priority_count};
ghost use Rattle.pb_game.specs.Solutions.{HasLengths};
ghost use Rattle.pb_strategy.specs.Ranges.{IsFlawOf, IsFlawOfRange, IsPartOf, IsWhole, Refutes};

use crate::position::Position;
use crate::range::Range;
use pb_game::{CertificateRule, Flaw, Game, Solution};
use std::thread::{Threads, join};

/// Of fewer vertices than so many one worker takes no longer than several, with the threads that
/// these need.
const FEW: u32 = 4096;

/// Whether the lists have their lengths.
fn has_lengths(game: &Game, solution: &Solution) -> bool
    ensures { IsTrue result ↔ HasLengths game.now solution.now }
{
    let vertices = game.len() as usize;
    let priorities = game.greatest_priority() as usize + 1;
    solution.winner.len() == vertices
        && solution.choice.len() == vertices
        && solution.counts.len() == vertices * priorities
}

impl<'a> Range<'a> {
    /// All vertices of a game.
    ///
    /// # Errors
    ///
    /// The lists haven't their lengths (K05).
    pub(crate) fn whole(game: &'a Game, solution: &'a Solution) -> Result<Range<'a>, Flaw>
        ensures range { IfOk result (λ range. IsWhole game.entry.now solution.entry.now range) }
        ensures flaw { IfErr result (Refutes game.entry.now solution.entry.now) }
    {
        if !has_lengths(game, solution) {
            return Err(Flaw {
                vertex: 0,
                rule: CertificateRule::Length,
            });
        }
        Ok(Range {
            game,
            solution,
            from: 0,
            to: game.len(),
        })
    }

    /// The least vertex at which a rule fails, with the first such rule.
    pub(crate) fn first_flaw(self) -> Option<Flaw>
        ensures { IsFlawOfRange self.entry result }
    {
        for vertex in self.from..self.to {
            let position = Position {
                game: self.game,
                solution: self.solution,
                number: vertex,
            };
            if let Some(rule) = position.first_rule() {
                return Some(Flaw { vertex, rule });
            }
        }
        None
    }

    /// The vertices before one of them, and those from it on.
    fn split_at(self, vertex: u32) -> (Self, Self)
        requires from { self.from ≤ vertex }
        requires to { vertex ≤ self.to }
        ensures low { IsPartOf self.entry result.0 self.entry.from vertex }
        ensures high { IsPartOf self.entry result.1 vertex self.entry.to }
    {
        let Range {
            game,
            solution,
            from,
            to,
            ..
        } = self;
        let low = Range {
            game,
            solution,
            from,
            to: vertex,
        };
        let high = Range {
            game,
            solution,
            from: vertex,
            to,
        };
        (low, high)
    }

    /// The same, by so many workers, which go on one after another where no threads can be made.
    #[cycle(halves)]
    pub(crate) fn first_flaw_by<R: Threads + Sync>(self, rt: &R, workers: u32) -> Option<Flaw>
        ensures { IsFlawOfRange self.entry result }
    {
        let count = self.to - self.from;
        if workers < 2 || count < FEW {
            return self.first_flaw();
        }
        let others = workers / 2;
        let rest = workers - others;
        let (low, high) = self.split_at(self.from + count / workers * others);
        let front = move || -> Option<Flaw>
            requires { IsSync R.row }
            ensures { IsFlawOfRange low.entry result }
        { low.first_flaw_by(rt, others) };
        let back = move || -> Option<Flaw>
            requires { IsSync R.row }
            ensures { IsFlawOfRange high.entry result }
        { high.first_flaw_by(rt, rest) };
        let (first, second) = join(rt, front, back);
        first.or(second)
    }
}

/// The first flaw of a solution, where it is no certificate of the game.
pub(crate) fn flaw_of(game: &Game, solution: &Solution) -> Option<Flaw>
    ensures { IsFlawOf game.now solution.now result }
{
    match Range::whole(game, solution) {
        Ok(range) => range.first_flaw(),
        Err(flaw) => Some(flaw),
    }
}

/// The same, which so many workers look for.
pub(crate) fn flaw_by<R: Threads + Sync>(
    rt: &R,
    workers: u32,
    game: &Game,
    solution: &Solution,
) -> Option<Flaw>
    ensures { IsFlawOf game.now solution.now result }
{
    match Range::whole(game, solution) {
        Ok(range) => range.first_flaw_by(rt, workers),
        Err(flaw) => Some(flaw),
    }
}
