//! A subgame that is solved component by component.

use crate::budget::Stop;
use crate::components::Within;
use crate::levels::Part;
use crate::share::Share;
use crate::workspace::{Attractor, Region, Workspace, item};
use pb_game::{Game, Player};
use std::alloc::AllocError;
use std::thread::Threads;

/// A subgame that is solved component by component, last ones first. What a player wins attracts
/// from the components that are left.
#[derive(Drop)]
pub(crate) struct Split {
    /// Where the component under way begins in the list.
    pub start: usize,
    /// Where it ends, with what was attracted from it.
    stop: usize,
    from: usize,
    /// The ends of components that were there before, and how many are solved.
    first: usize,
    next: usize,
    /// Whether the opponent has no count of its own at the limit, which is above all priorities.
    is_whole: bool,
    open: u32,
    stamp: u32,
    mine: Share,
    theirs: Share,
}

impl Split {
    /// The components of a subgame; `None` where they aren't asked for, or it is one.
    pub fn new(game: &Game, space: &mut Workspace, part: Part) -> Result<Option<Split>, Stop> {
        if !space.by_components || part.to <= part.from.saturating_add(1) {
            return Ok(None);
        }
        let labels = (space.fresh()?, space.fresh()?);
        let open = space.fresh()?;
        let first = space.components.ends.len();
        find_components(game, space, part, open)?;
        if space.components.ends.len() <= first.saturating_add(1) {
            space.components.ends.truncate(first);
            return Ok(None);
        }
        arrange(space, part)?;
        let player = Player::of_priority(part.limit);
        let is_whole = part.limit == space.draft.width;
        let mut priority = Some(part.limit);
        if is_whole {
            priority = part.limit.checked_sub(2);
        }
        Ok(Some(Split {
            start: part.from,
            stop: part.from,
            from: part.from,
            first,
            next: first,
            is_whole,
            open,
            stamp: space.fresh()?,
            theirs: Share {
                player: player.opponent(),
                label: labels.0,
                priority,
                greatest: 0,
            },
            mine: Share {
                player,
                label: labels.1,
                priority: part.limit.checked_sub(1),
                greatest: 0,
            },
        }))
    }

    /// Goes on to the next component of which something is left. That stands from `start` on in the
    /// list, to below the place that is given.
    pub fn next(&mut self, space: &mut Workspace) -> Result<Option<usize>, Stop> {
        for k in self.next..space.components.ends.len() {
            self.next = k + 1;
            self.start = self.stop;
            let Some(end) = space.components.end(k) else {
                break
            };
            self.stop = self.from.saturating_add(end);
            space.budget.spend(self.stop.saturating_sub(self.start))?;
            let mut to = self.start;
            for i in self.start..self.stop {
                let Some(v) = space.vertices.vertex(i) else {
                    break
                };
                if space.label.get(v) == self.open {
                    space.vertices.swap(i, to)?;
                    to = to.saturating_add(1);
                }
            }
            if self.start < to {
                return Ok(Some(to));
            }
        }
        Ok(None)
    }

    /// Reads who wins what of a component that is solved, and attracts to it from those that are
    /// left.
    pub fn settle(
        &mut self,
        rt: &(impl Threads + Sync),
        game: &Game,
        space: &mut Workspace,
        part: Part,
    ) -> Result<(), Stop> {
        space.budget.spend(part.to.saturating_sub(part.from))?;
        let (mut mine, mut theirs) = (self.mine, self.theirs);
        for k in part.from..part.to {
            let Some(v) = space.vertices.vertex(k) else {
                break
            };
            if space.draft.winner(v) == mine.player {
                let count = space.draft.count(v, mine.priority);
                mine.take(space, v, self.mine.greatest.saturating_add(count));
            } else {
                let mut count = 1;
                if self.is_whole {
                    count = space.draft.count(v, theirs.priority);
                }
                theirs.take(space, v, self.theirs.greatest.saturating_add(count));
            }
        }
        take_won(space, part, theirs.label)?;
        self.theirs = self.attract(rt, game, space, theirs)?;
        take_won(space, part, mine.label)?;
        self.mine = self.attract(rt, game, space, mine)?;
        Ok(())
    }

    /// Attracts, of the components that are left, to what is taken, which a player has won.
    fn attract(
        &self,
        rt: &(impl Threads + Sync),
        game: &Game,
        space: &mut Workspace,
        share: Share,
    ) -> Result<Share, Stop> {
        let mut share = share;
        let had = space.taken.len();
        let attractor = Attractor {
            player: share.player,
            open: self.open,
            region: Region {
                stamp: self.stamp,
                from: self.theirs.label,
                but: share.label,
            },
        };
        space.attract(rt, game, attractor)?;
        for k in had..space.taken.len() {
            let Some(v) = item(&space.taken, k) else {
                break
            };
            let count = share.greatest;
            share.take(space, v, count);
        }
        Ok(share)
    }

    /// Forgets the components.
    pub fn close(&self, space: &mut Workspace) {
        space.components.ends.truncate(self.first);
    }
}

/// Takes what has this label of a subgame.
fn take_won(space: &mut Workspace, part: Part, label: u32) -> Result<(), Stop> {
    space.taken.clear();
    for k in part.from..part.to {
        let Some(v) = space.vertices.vertex(k) else {
            break
        };
        if space.label.get(v) == label {
            space.taken.push(v)?;
        }
    }
    Ok(())
}

/// Labels a subgame, and finds its components.
fn find_components(game: &Game, space: &mut Workspace, part: Part, label: u32) -> Result<(), Stop> {
    space.taken.clear();
    for k in part.from..part.to {
        let Some(v) = space.vertices.vertex(k) else {
            break
        };
        space.label.set(v, label);
        space.taken.push(v)?;
    }
    let within = Within {
        game,
        label: &space.label,
        part: label,
        strategy: None,
    };
    space
        .components
        .find(within, &mut space.budget, &space.taken)
}

/// Puts a subgame into the order of its components.
fn arrange(space: &mut Workspace, part: Part) -> Result<(), AllocError> {
    for k in 0..space.components.order.len() {
        let Some(v) = item(&space.components.order, k) else {
            break
        };
        space.vertices.put(part.from.saturating_add(k), v)?;
    }
    Ok(())
}
