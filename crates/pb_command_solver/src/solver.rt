//! The solvers of parity games, and one call for all of them.
//!
//! [`solve`] answers with a solution that the checker has certified, whichever [`Solver`] is asked
//! for. By regions three searches of `pb_search` go first, each under a budget, of which nothing is
//! claimed but that they are safe and end: Zielonka's recursion (Zielonka 1998) with fronts that
//! are kept, the same by components, and priority promotion (Benerecetti, Dell'Erba and Mogavero
//! 2018). Last stands the recursion of `pb_zielonka`, which has no bound in time, and whose
//! solution is proved a certificate. The first solution that the checker passes is the answer.
//! Lifting (Jurdzinski 2000) may have none, and then the regions answer in its place. A game has
//! one partition into winning regions, so all name the same winners; their strategies and measures
//! may differ.

ghost use Rattle.std.specs.Prelude.{◌<◌, IfOk, IfSome};
ghost use Rattle.pb_game.specs.Certificates.{IsCertificate};
ghost use Rattle.pb_command_solver.specs.Solving.{IsSolutionBy};

use crate::context::Context;
use crate::progress::{Phase, Progress};
use pb_game::{Game, Solver};
use pb_lifting::{LiftError, lift};
use pb_search::{Search, search};
use pb_strategy::{Certified, certify};
use std::alloc::AllocError;
use std::thread::Threads;

/// The winners of all vertices, which the checker has certified. So many workers lift, and check
/// solutions; the gate sees each of their lifts, and when a solution is checked.
///
/// # Errors
///
/// Memory alone: where lifting has more ranks than a word, or the checker refuses its solution, the
/// regions answer, and where no search does, the recursion that is proved, whose solutions the
/// checker can't refuse.
pub fn solve<G: Progress + Sync, R: Threads + Sync>(
    context: &Context<'_, R, G>,
    game: &Game,
    solver: Solver,
    workers: u32,
) -> Result<Certified, AllocError>
    requires workers { 0 < workers }
    ensures { IfOk result (IsSolutionBy solver game.now) }
{
    match solver {
        Solver::Zielonka => solve_by_regions(context, game, workers),
        Solver::Lift => match lift(context.rt, context.alloc, game, workers, context.gate) {
            Ok(solution) => {
                context.gate.begins(Phase::Checking);
                match certify(context.rt, workers, game, solution) {
                    Ok(certified) => Ok(certified),
                    Err(_) => solve_by_regions(context, game, workers),
                }
            }
            Err(LiftError::Refused(_)) => solve_by_regions(context, game, workers),
            Err(LiftError::Memory) => Err(AllocError),
        },
    }
}

/// The searches, the one first that is fast on most games.
const SEARCHES: [Search; 3] = [Search::Recursion, Search::Components, Search::Promotion];

/// The solution of the first search that ends within its budget with what the checker certifies.
fn solve_by_search<R: Threads + Sync, G: Progress + Sync>(
    context: &Context<'_, R, G>,
    game: &Game,
    workers: u32,
) -> Result<Option<Certified>, AllocError>
    ensures { IfOk result (λ found. IfSome found (λ s. IsCertificate game.now s)) }
{
    for &method in &SEARCHES {
        if let Some(solution) = search(context.rt, context.alloc, game, method)? {
            context.gate.begins(Phase::Checking);
            if let Ok(certified) = certify(context.rt, workers, game, solution) {
                return Ok(Some(certified));
            }
        }
    }
    Ok(None)
}

/// The solution of a search where one has an answer, and else that of the recursion that is proved,
/// once the checker has gone over it.
fn solve_by_regions<R: Threads + Sync, G: Progress + Sync>(
    context: &Context<'_, R, G>,
    game: &Game,
    workers: u32,
) -> Result<Certified, AllocError>
    ensures { IfOk result (λ s. IsCertificate game.now s) }
{
    if let Some(certified) = solve_by_search(context, game, workers)? {
        return Ok(certified);
    }
    let solution = pb_zielonka::solve(context.rt, context.alloc, game)?;
    context.gate.begins(Phase::Checking);
    match certify(context.rt, workers, game, solution) {
        Ok(certified) => Ok(certified),
        Err(_) => unreachable!(),
    }
}
