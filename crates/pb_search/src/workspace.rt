//! What all levels of the recursion work in, and attractors within it.

use crate::arena::{Draft, Numbers, owner, predecessors, successors};
use crate::budget::{Budget, Stop};
use crate::components::Components;
use crate::passed::Passed;
use crate::permutation::Permutation;
use crate::rounds::{Ahead, Forced, LONG, MANY, Ways, look_ahead};
use pb_game::{Game, Player};
use std::alloc::{AllocError, Global};
use std::thread::Threads;

/// A region: the vertices whose label is at least `from`, except those of the label `but`. How many
/// of a vertex's first successors are outside is kept under the stamp, as long as none of them
/// comes back.
#[derive(Clone, Copy)]
pub(crate) struct Region {
    pub stamp: u32,
    pub from: u32,
    pub but: u32,
}

impl Region {
    /// Whether a vertex of this label is in the region.
    #[inline]
    pub fn has(self, label: u32) -> bool {
        self.from <= label && label != self.but
    }
}

/// An attractor: the player takes in vertices of the label `open`, and they get the label that the
/// region leaves out. The opponent's vertices are taken in once no successor is in the region.
#[derive(Clone, Copy)]
pub(crate) struct Attractor {
    pub player: Player,
    pub open: u32,
    pub region: Region,
}

impl Attractor {
    /// The opponent's vertices that it may take in.
    fn forced(self) -> Forced {
        Forced {
            player: self.player.opponent(),
            least: self.open,
            greatest: self.open,
            region: self.region,
        }
    }
}

/// The lists of a search by recursion. Labels and stamps are numbers of one clock, so that none has
/// to be reset; a list of vertices is in use in one turn of one level at a time.
#[derive(Drop)]
pub(crate) struct Workspace {
    pub budget: Budget,
    pub clock: u32,
    /// The part of the game that a vertex belongs to: at a level its front, its rest, what lost its
    /// support, or 0 for what is decided. Deeper levels have greater labels.
    pub label: Numbers,
    /// In which order the front of a level took in the vertex, 0 at its heads. It is made when a
    /// front first takes in any.
    pub order: Numbers,
    pub passed: Passed,
    /// At how many vertices of the round under way a search for a way out passed over many.
    pub long_ways: u32,
    /// All vertices: a level has a part of this list, and what it solves again stands first there.
    pub vertices: Permutation,
    pub draft: Draft,
    /// What the attractor under way has taken in.
    pub taken: Vec<u32>,
    /// The player's vertices whose choice the opponent has won.
    pub hit: Vec<u32>,
    /// What the front has lost.
    pub lost: Vec<u32>,
    /// What the rest has lost, and is solved again.
    pub part: Vec<u32>,
    pub ahead: Ahead,
    /// Whether each level solves its rest component by component.
    pub by_components: bool,
    pub components: Components,
}

impl Workspace {
    pub fn new(
        alloc: Global,
        game: &Game,
        budget: Budget,
        by_components: bool,
    ) -> Result<Workspace, AllocError> {
        let vertices = game.len() as usize;
        let mut of_components = 0;
        if by_components {
            of_components = vertices;
        }
        Ok(Workspace {
            budget,
            clock: 0,
            label: Numbers::new(alloc, vertices)?,
            order: Numbers::none(alloc),
            passed: Passed::none(alloc, vertices),
            long_ways: 0,
            vertices: Permutation::identity(alloc, game.len()),
            draft: Draft::new(alloc, game)?,
            taken: Vec::new(alloc),
            hit: Vec::new(alloc),
            lost: Vec::new(alloc),
            part: Vec::new(alloc),
            ahead: Ahead::new(alloc),
            by_components,
            components: Components::new(alloc, of_components)?,
        })
    }

    /// The next number of the clock.
    pub fn fresh(&mut self) -> Result<u32, Stop> {
        if self.clock == u32::MAX {
            return Err(Stop::GaveUp);
        }
        self.clock += 1;
        Ok(self.clock)
    }

    /// Whether the successor of `u` is in the region at which the last search under its stamp
    /// stopped. Where no search passed over any, that is the first one.
    #[inline]
    pub fn knows_way_out(&self, game: &Game, u: u32, region: Region) -> bool {
        let place = self.passed.get(u, region.stamp);
        match item(successors(game, u), place as usize) {
            Some(w) => region.has(self.label.get(w)),
            None => false,
        }
    }

    /// The first successor of `u` in the region, looked for where the last search under this stamp
    /// stopped; those before it are passed.
    pub fn pass_over(&mut self, game: &Game, u: u32, region: Region) -> Result<Option<u32>, Stop> {
        let from = self.passed.get(u, region.stamp);
        let ways = Ways {
            game,
            label: &self.label,
            region,
        };
        let place = ways.first(u, from);
        self.passed.set(u, region.stamp, place)?;
        let looks = place.saturating_sub(from);
        if LONG <= looks {
            self.long_ways = self.long_ways.saturating_add(1);
        }
        self.budget.spend(looks as usize)?;
        Ok(item(successors(game, u), place as usize))
    }

    /// Begins a round, which goes over what is taken up to the place that is given.
    #[inline]
    pub fn begin_round(&mut self) -> usize {
        self.long_ways = 0;
        self.taken.len()
    }

    /// Whether the round turns large at the vertex at which it has decided: once in a round.
    #[inline]
    pub fn turns_large(&mut self) -> bool {
        if self.long_ways != MANY {
            return false;
        }
        self.long_ways = MANY + 1;
        true
    }

    /// Takes in, round by round, what the player forces into the vertices that are taken already.
    pub fn attract(
        &mut self,
        rt: &(impl Threads + Sync),
        game: &Game,
        attractor: Attractor,
    ) -> Result<(), Stop> {
        let mut end = 0;
        for k in 0..usize::MAX {
            let Some(x) = item(&self.taken, k) else { break };
            if k == end {
                end = self.begin_round();
            }
            let row = predecessors(game, x);
            self.budget.spend(row.len())?;
            for &u in row {
                if self.label.get(u) == attractor.open {
                    self.try_to_take(game, attractor, u, x)?;
                    if self.turns_large() {
                        look_ahead(rt, game, self, attractor.forced(), k..end)?;
                    }
                }
            }
        }
        Ok(())
    }

    /// Takes in the open predecessor `u` of `x`, unless the opponent has a way out there.
    #[inline]
    fn try_to_take(
        &mut self,
        game: &Game,
        attractor: Attractor,
        u: u32,
        x: u32,
    ) -> Result<(), Stop> {
        if owner(game, u) == attractor.player {
            self.draft.set_choice(u, x);
        } else if self.knows_way_out(game, u, attractor.region) {
            return self.budget.spend(0);
        } else if self.pass_over(game, u, attractor.region)?.is_some() {
            return Ok(());
        }
        self.label.set(u, attractor.region.but);
        self.draft.set_winner(u, attractor.player);
        self.taken.push(u)?;
        Ok(())
    }
}

/// The item at a place of a list.
#[inline]
pub(crate) fn item(list: &[u32], k: usize) -> Option<u32> {
    if k < list.len() { Some(list[k]) } else { None }
}

/// A place as a number of 32 bits, which every place of a vertex or of a successor is.
#[inline]
pub(crate) fn narrow(k: usize) -> u32 {
    if k < 0x1_0000_0000 {
        k as u32
    } else {
        u32::MAX
    }
}
