//! A level of the recursion: how it begins, what it reads of the next one, and how it ends.

use crate::arena::{owner, priority, successors};
use crate::budget::Stop;
use crate::few::{FEW, may_attract};
use crate::rounds::Forced;
use crate::workspace::{Attractor, Region, Workspace, item};
use pb_game::{Game, Player};
use std::alloc::AllocError;
use std::thread::Threads;

/// A subgame: the vertices from one place of the list to below another. Their priorities are below
/// the limit.
#[derive(Clone, Copy)]
pub(crate) struct Part {
    pub from: usize,
    pub to: usize,
    pub limit: u32,
}

/// Places of the list, from one to below another.
#[derive(Clone, Copy)]
pub(crate) struct Places {
    pub from: usize,
    pub to: usize,
}

impl Places {
    /// How many places these are.
    #[inline]
    pub fn len(self) -> usize {
        self.to.saturating_sub(self.from)
    }
}

/// A level of the recursion.
#[derive(Clone, Copy)]
pub(crate) struct Level {
    pub part: Part,
    pub top: u32,
    pub player: Player,
    /// The label of the front.
    pub front: u32,
    /// The label of the rest.
    pub rest: u32,
    /// Where the list has what the next level solves.
    pub inner: Places,
    /// How many vertices aren't decided, and where in the list all of these stand.
    pub undecided: usize,
    pub left: Places,
    /// The greatest order in the front.
    pub order: u32,
    /// The greatest count of what the opponent has won.
    pub conceded: u64,
    /// The greatest count of what the player has won in the rest.
    pub base: u64,
}

impl Part {
    /// How many vertices it has.
    #[inline]
    pub fn len(self) -> usize {
        self.to.saturating_sub(self.from)
    }

    /// Whether it has all vertices of the game.
    pub fn is_whole(self, game: &Game) -> bool {
        self.len() == game.len() as usize
    }
}

impl Level {
    /// The priority of the counts of what the player wins, if there is one.
    #[inline]
    pub fn below(&self) -> Option<u32> {
        self.top.checked_sub(1)
    }

    /// All that isn't decided.
    #[inline]
    pub fn region(&self) -> Region {
        Region {
            stamp: self.front,
            from: self.front,
            but: 0,
        }
    }

    /// The player's vertices that the opponent may win.
    pub fn forced(&self) -> Forced {
        Forced {
            player: self.player,
            least: self.front,
            greatest: u32::MAX,
            region: self.region(),
        }
    }
}

/// The greatest priority of a subgame.
pub(crate) fn greatest(game: &Game, space: &mut Workspace, part: Part) -> Result<u32, Stop> {
    space.budget.spend(part.len())?;
    if part.is_whole(game) {
        return Ok(game.greatest_priority());
    }
    let mut greatest = 0;
    for k in part.from..part.to {
        let Some(v) = space.vertices.vertex(k) else {
            break
        };
        greatest = priority(game, v).max(greatest);
        if part.limit <= greatest.saturating_add(1) {
            break;
        }
    }
    Ok(greatest)
}

/// Divides a subgame into the front and the rest, which stands side by side in the list then.
pub(crate) fn open(
    rt: &(impl Threads + Sync),
    game: &Game,
    space: &mut Workspace,
    part: Part,
    top: u32,
) -> Result<Level, Stop> {
    let mut level = Level {
        part,
        top,
        player: Player::of_priority(top),
        front: space.fresh()?,
        rest: space.fresh()?,
        inner: Places {
            from: part.from,
            to: part.from,
        },
        undecided: part.len(),
        left: Places {
            from: part.from,
            to: part.to,
        },
        order: 0,
        conceded: 0,
        base: 0,
    };
    take_heads(game, space, &level)?;
    let heads = space.taken.len();
    let attractor = Attractor {
        player: level.player,
        open: level.rest,
        region: Region {
            stamp: level.rest,
            from: level.rest,
            but: level.front,
        },
    };
    if may_attract(game, space, attractor)? {
        space.attract(rt, game, attractor)?;
        number_front(space, &mut level, heads)?;
    }
    if is_front_first(game, space, part, heads) {
        level.inner = Places {
            from: heads,
            to: part.to,
        };
    } else {
        gather_rest(space, &mut level)?;
    }
    Ok(level)
}

/// Whether the front is the first vertices of the whole game, so that the rest need not be moved.
fn is_front_first(game: &Game, space: &Workspace, part: Part, heads: usize) -> bool {
    let Some(last) = item(&space.taken, heads.wrapping_sub(1)) else {
        return false;
    };
    part.is_whole(game)
        && space.taken.len() == heads
        && space.vertices.place(last).saturating_add(1) == heads
}

/// Puts the rest side by side in the list. Few vertices, which are listed, are known to be all of
/// it.
fn gather_rest(space: &mut Workspace, level: &mut Level) -> Result<(), AllocError> {
    if space.part.len() <= FEW {
        if let Some(places) = places_of_rest(space, level) {
            level.inner = places;
            return Ok(());
        }
        for k in 0..space.part.len() {
            let Some(v) = item(&space.part, k) else { break };
            let place = space.vertices.place(v);
            put_in_rest(space, level, v, place)?;
        }
        return Ok(());
    }
    let rest = level.part.len().saturating_sub(space.taken.len());
    for k in level.part.from..level.part.to {
        if level.inner.len() == rest {
            break;
        }
        let Some(v) = space.vertices.vertex(k) else {
            break
        };
        put_in_rest(space, level, v, k)?;
    }
    Ok(())
}

/// Where the rest stands, if it is side by side, of the few vertices that are listed.
fn places_of_rest(space: &Workspace, level: &Level) -> Option<Places> {
    let mut places = level.inner;
    for k in 0..space.part.len() {
        let Some(v) = item(&space.part, k) else { break };
        if space.label.get(v) != level.rest {
            continue;
        }
        let place = space.vertices.place(v);
        if places.len() == 0 {
            places = Places {
                from: place,
                to: place,
            };
        }
        if place != places.to {
            return None;
        }
        places.to = places.to.saturating_add(1);
    }
    Some(places)
}

/// Puts the vertex at this place behind those of the rest that are put there, if it is of the rest.
#[inline]
fn put_in_rest(
    space: &mut Workspace,
    level: &mut Level,
    v: u32,
    place: usize,
) -> Result<(), AllocError> {
    if space.label.get(v) == level.rest {
        space.vertices.swap(place, level.inner.to)?;
        level.inner.to = level.inner.to.saturating_add(1);
    }
    Ok(())
}

/// Labels a subgame, takes its heads, and lists its rest as far as that is few.
fn take_heads(game: &Game, space: &mut Workspace, level: &Level) -> Result<(), Stop> {
    space.budget.spend(level.part.len())?;
    space.taken.clear();
    space.part.clear();
    for k in level.part.from..level.part.to {
        let Some(v) = space.vertices.vertex(k) else {
            break
        };
        if priority(game, v) == level.top {
            space.label.set(v, level.front);
            space.order.set(v, 0);
            space.draft.set_count(v, level.below(), 0);
            space.taken.push(v)?;
        } else {
            space.label.set(v, level.rest);
            if space.part.len() <= FEW {
                space.part.push(v)?;
            }
        }
    }
    Ok(())
}

/// Numbers what the front has taken in, from a place on.
pub(crate) fn number_front(
    space: &mut Workspace,
    level: &mut Level,
    from: usize,
) -> Result<(), AllocError> {
    if space.taken.len() <= from {
        return Ok(());
    }
    space.order.make(space.vertices.len())?;
    for k in from..space.taken.len() {
        let Some(v) = item(&space.taken, k) else {
            break
        };
        level.order = level.order.saturating_add(1);
        space.order.set(v, level.order);
        space
            .draft
            .set_count(v, level.below(), u64::from(level.order));
    }
    Ok(())
}

/// Takes what the opponent wins of what the next level has solved, and puts the counts of all of it
/// above those that stand.
pub(crate) fn read_back(
    space: &mut Workspace,
    level: &mut Level,
    is_split: bool,
) -> Result<(), Stop> {
    space.taken.clear();
    space.budget.spend(level.inner.len())?;
    let (conceded, base) = (level.conceded, level.base.saturating_add(1));
    for k in level.inner.from..level.inner.to {
        let Some(v) = space.vertices.vertex(k) else {
            break
        };
        if space.draft.winner(v) == level.player {
            space.label.set(v, level.rest);
            let count = space.draft.count(v, level.below()).saturating_add(base);
            space.draft.set_count(v, level.below(), count);
            level.base = level.base.max(count);
        } else {
            let mut count = 1;
            if is_split {
                count = space.draft.count(v, Some(level.top));
            }
            count = conceded.saturating_add(count);
            space.draft.set_count(v, Some(level.top), count);
            level.conceded = level.conceded.max(count);
            space.label.set(v, 0);
            space.taken.push(v)?;
        }
    }
    Ok(())
}

/// The player wins all that is left of the level.
pub(crate) fn close(game: &Game, space: &mut Workspace, level: &Level) -> Result<(), Stop> {
    let part = level.part;
    space.budget.spend(part.len())?;
    let lowest = level.top.saturating_add(1);
    if part.limit <= lowest {
        return close_left(game, space, level);
    }
    for k in part.from..part.to {
        let Some(v) = space.vertices.vertex(k) else {
            break
        };
        for q in lowest..part.limit {
            space.draft.set_count(v, Some(q), 0);
        }
    }
    close_left(game, space, level)
}

/// The player wins what isn't decided.
fn close_left(game: &Game, space: &mut Workspace, level: &Level) -> Result<(), Stop> {
    let mut undecided = level.undecided;
    let above = u64::from(level.order).saturating_add(1);
    for k in level.left.from..level.left.to {
        if undecided == 0 {
            break;
        }
        let Some(v) = space.vertices.vertex(k) else {
            break
        };
        let label = space.label.get(v);
        if label < level.front {
            continue;
        }
        undecided = undecided.saturating_sub(1);
        if label == level.front {
            if space.order.get(v) == 0 {
                close_head(game, space, level, v)?;
            }
        } else if label >= level.rest {
            let count = space.draft.count(v, level.below()).saturating_add(above);
            space.draft.set_count(v, level.below(), count);
        }
    }
    Ok(())
}

/// The player wins a head, and moves from there to what isn't decided.
#[inline]
fn close_head(game: &Game, space: &mut Workspace, level: &Level, v: u32) -> Result<(), Stop> {
    space.draft.set_winner(v, level.player);
    if owner(game, v) != level.player {
        return Ok(());
    }
    let region = level.region();
    let mut choice = item(successors(game, v), 0);
    if let Some(u) = choice {
        if !region.has(space.label.get(u)) {
            choice = space.pass_over(game, v, region)?;
        }
    }
    if let Some(u) = choice {
        space.draft.set_choice(v, u);
    }
    Ok(())
}
