//! Searches for the winners of a parity game, of which nothing is claimed but that they are safe
//! and end: what they find is for the checker (pb_strategy), and what it refuses is lost work
//! alone.
//!
//! A search writes a solution with its own progress measure (Jurdzinski 2000). Each runs under a
//! budget of looks at vertices and edges, since each is exponential on some games.
#![tactic(auto)]

mod arena;
mod budget;
mod chains;
mod components;
mod few;
mod levels;
mod measure;
mod method;
mod passed;
mod permutation;
mod promotion;
mod recursion;
mod rounds;
mod share;
mod split;
mod support;
mod turns;
mod workspace;

use arena::Draft;
use budget::{Budget, Stop};
use levels::Part;
use measure::write_measure;
pub use method::Search;
use pb_game::{Game, Solution};
use promotion::promote;
use recursion::solve_parts;
use std::alloc::{AllocError, Global};
use std::thread::Threads;
use workspace::Workspace;

/// Looks for each vertex and edge that the recursion may take: eight times what it took at most on
/// any game that came from a model.
const RECURSION: usize = 64;
/// More looks, for small games.
const MORE_RECURSION: usize = 1 << 16;
/// The recursion by components is tried on games that are hard for the first one alone, so it may
/// take longer.
const COMPONENTS: usize = 512;

const MORE_COMPONENTS: usize = 1 << 18;
/// Promotion is the last search before the recursion that is proved, whose time has no bound.
const PROMOTION: usize = 512;

const MORE_PROMOTION: usize = 1 << 22;

/// A solution of the game by this search: `None` where its budget is spent, which is so many looks
/// at a vertex or an edge for each vertex and edge. Nothing is claimed of the solution.
///
/// # Errors
///
/// Memory alone.
pub fn search(
    rt: &(impl Threads + Sync),
    alloc: Global,
    game: &Game,
    method: Search,
) -> Result<Option<Solution>, AllocError> {
    let found = match method {
        Search::Recursion => recurse(rt, alloc, game, false),
        Search::Components => recurse(rt, alloc, game, true),
        Search::Promotion => promote_within(alloc, game),
    };
    match found {
        Ok(solution) => Ok(Some(solution)),
        Err(Stop::GaveUp) => Ok(None),
        Err(Stop::Memory) => Err(AllocError),
    }
}

/// A solution by the recursion.
fn recurse(
    rt: &(impl Threads + Sync),
    alloc: Global,
    game: &Game,
    by_components: bool,
) -> Result<Solution, Stop> {
    let budget = if by_components {
        Budget::new(game, COMPONENTS, MORE_COMPONENTS)
    } else {
        Budget::new(game, RECURSION, MORE_RECURSION)
    };
    let mut space = Workspace::new(alloc, game, budget, by_components)?;
    let whole = Part {
        from: 0,
        to: game.len() as usize,
        limit: space.draft.width,
    };
    solve_parts(rt, game, &mut space, whole)?;
    let Workspace { draft, .. } = space;
    let Draft { solution, .. } = draft;
    Ok(solution)
}

/// A solution by promotion, with a measure of its strategies.
fn promote_within(alloc: Global, game: &Game) -> Result<Solution, Stop> {
    let mut budget = Budget::new(game, PROMOTION, MORE_PROMOTION);
    let mut draft = promote(alloc, game, &mut budget)?;
    write_measure(alloc, game, &mut draft, &mut budget)?;
    let Draft { solution, .. } = draft;
    Ok(solution)
}
