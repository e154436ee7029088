//! Rounds of an attractor, of which each goes over the predecessors of what the one before took in.
//!
//! In a large round several threads look ahead: at each vertex at which the rest of the round has
//! to decide they pass over the first successors that are no way out. These stay none, so the round
//! takes in what it would without them, in the same order and for as many looks.

use crate::arena::{Numbers, owner, predecessors, successors};
use crate::budget::{Budget, Stop};
use crate::passed::Passed;
use crate::workspace::{Region, Workspace, item, narrow};
use pb_game::{Game, Player};
use rayon::current_num_threads;
use rayon::prelude::*;
use std::alloc::{AllocError, Global};
use std::ops::Range;
use std::thread::Threads;

/// A search for a way out that passes over so many successors is long: below it, to list a vertex
/// for a thread costs more than the thread saves.
pub(crate) const LONG: u32 = 32;

/// A round is large once it was long at so many vertices. Of fewer candidates a chain of `rayon`
/// goes over them on one thread.
pub(crate) const MANY: u32 = 2048;

/// Stands for the number of passed successors while a vertex is a candidate.
const LISTED: u32 = u32::MAX;

/// The vertices at which a round decides: those of this player with these labels. What is in the
/// region is a way out for them.
#[derive(Clone, Copy)]
pub(crate) struct Forced {
    pub player: Player,
    pub least: u32,
    pub greatest: u32,
    pub region: Region,
}

/// A vertex at which a round decides, and how many of its first successors are no way out.
#[derive(Clone, Copy)]
struct Candidate {
    vertex: u32,
    passed: u32,
}

/// The candidates of a large round, and how many of the first successors of each are no way out.
#[derive(Drop)]
pub(crate) struct Ahead {
    candidates: Vec<Candidate>,
    places: Vec<u32>,
}

impl Ahead {
    pub fn new(alloc: Global) -> Ahead {
        Ahead {
            candidates: Vec::new(alloc),
            places: Vec::new(alloc),
        }
    }
}

/// Passes over the first successors that are no way out, of all vertices to which the round comes
/// from these places of the list, where there are several threads to do so.
pub(crate) fn look_ahead(
    rt: &(impl Threads + Sync),
    game: &Game,
    space: &mut Workspace,
    forced: Forced,
    frontier: Range<usize>,
) -> Result<(), Stop> {
    if current_num_threads(rt) < 2 {
        return Ok(());
    }
    space.ahead.candidates.clear();
    for k in frontier {
        let Some(x) = item(&space.taken, k) else {
            break
        };
        for &u in predecessors(game, x) {
            list_candidate(game, space, forced, u)?;
        }
    }
    let ways = Ways {
        game,
        label: &space.label,
        region: forced.region,
    };
    find_places(rt, &ways, &space.ahead.candidates, &mut space.ahead.places)?;
    settle(
        &mut space.passed,
        &mut space.budget,
        &space.ahead,
        forced.region.stamp,
    )
}

/// Lists the predecessor `u` of the frontier, once, where the round has to decide at it.
fn list_candidate(game: &Game, space: &mut Workspace, forced: Forced, u: u32) -> Result<(), Stop> {
    let label = space.label.get(u);
    if label < forced.least || forced.greatest < label || owner(game, u) != forced.player {
        return Ok(());
    }
    let passed = space.passed.get(u, forced.region.stamp);
    if passed != LISTED {
        space.passed.set(u, forced.region.stamp, LISTED)?;
        space
            .ahead
            .candidates
            .push(Candidate { vertex: u, passed })?;
    }
    Ok(())
}

/// What a search for ways out reads.
#[derive(Clone, Copy)]
pub(crate) struct Ways<'g, 'l> {
    pub game: &'g Game,
    pub label: &'l Numbers,
    pub region: Region,
}

impl Ways<'_, '_> {
    /// The place of the first successor of `u` in the region, from a place on; behind the last one
    /// where there is none.
    #[inline]
    pub fn first(&self, u: u32, from: u32) -> u32 {
        let row = successors(self.game, u);
        for k in from as usize..row.len() {
            if self.region.has(self.label.get(row[k])) {
                return narrow(k);
            }
        }
        narrow(row.len())
    }
}

/// Finds how many of the first successors of each candidate are no way out, by several threads; of
/// few candidates none, since the round is as quick by itself.
fn find_places(
    rt: &(impl Threads + Sync),
    ways: &Ways<'_, '_>,
    candidates: &[Candidate],
    places: &mut Vec<u32>,
) -> Result<(), AllocError> {
    if candidates.len() < MANY as usize {
        places.clear();
        return Ok(());
    }
    candidates
        .par_iter()
        .map(|candidate: &Candidate| -> u32 { ways.first(candidate.vertex, candidate.passed) })
        .collect_into_vec(rt, places)
}

/// Notes how many successors of each candidate are no way out, as far as that was found, and takes
/// the looks for it.
fn settle(passed: &mut Passed, budget: &mut Budget, ahead: &Ahead, stamp: u32) -> Result<(), Stop> {
    for k in 0..ahead.candidates.len() {
        let candidate = ahead.candidates[k];
        let Some(place) = item(&ahead.places, k) else {
            passed.set(candidate.vertex, stamp, candidate.passed)?;
            continue;
        };
        passed.set(candidate.vertex, stamp, place)?;
        budget.pass(place.saturating_sub(candidate.passed) as usize)?;
    }
    Ok(())
}
