//! What lost its support in a turn is supported another way, if it can be.

use crate::arena::{owner, successors};
use crate::budget::Stop;
use crate::levels::Level;
use crate::workspace::{Attractor, Region, Workspace, item};
use pb_game::Game;
use std::thread::Threads;

/// A turn: its level, and the label of what has lost its support.
#[derive(Clone, Copy)]
pub(crate) struct Turn {
    pub level: Level,
    pub now: u32,
}

/// A successor that is looked for: of this label, and taken in by the front before this order.
#[derive(Clone, Copy)]
struct Wanted {
    label: u32,
    before: u32,
}

/// A successor of the player's vertex `u` as it is wanted.
fn find_successor(
    game: &Game,
    space: &mut Workspace,
    turn: Turn,
    u: u32,
    wanted: Wanted,
) -> Result<Option<u32>, Stop> {
    let region = turn.level.region();
    space.pass_over(game, u, region)?;
    let row = successors(game, u);
    for k in space.passed.get(u, region.stamp) as usize..row.len() {
        space.budget.spend(0)?;
        let w = row[k];
        if space.label.get(w) == wanted.label && space.order.get(w) < wanted.before {
            return Ok(Some(w));
        }
    }
    Ok(None)
}

/// Whether the front has another choice for its player's vertex `u`, one that it took in before;
/// then that is chosen, and `u` keeps its order.
pub(crate) fn replace(
    game: &Game,
    space: &mut Workspace,
    turn: Turn,
    u: u32,
) -> Result<bool, Stop> {
    let wanted = Wanted {
        label: turn.level.front,
        before: space.order.get(u),
    };
    let Some(w) = find_successor(game, space, turn, u, wanted)? else {
        return Ok(false);
    };
    space.draft.set_choice(u, w);
    Ok(true)
}

/// The front attracts another way what it can of what it has lost.
pub(crate) fn regain_front(
    rt: &(impl Threads + Sync),
    game: &Game,
    space: &mut Workspace,
    turn: Turn,
) -> Result<(), Stop> {
    let region = Region {
        stamp: space.fresh()?,
        from: turn.level.rest,
        but: turn.level.front,
    };
    space.taken.clear();
    for k in 0..space.lost.len() {
        let Some(x) = item(&space.lost, k) else { break };
        regain(game, space, turn, region, x)?;
    }
    attract_again(rt, game, space, turn, region)
}

/// Takes in the vertex `x`, if the player has a successor there of the label that the region leaves
/// out, or the opponent no way out.
fn regain(
    game: &Game,
    space: &mut Workspace,
    turn: Turn,
    region: Region,
    x: u32,
) -> Result<(), Stop> {
    space.budget.spend(0)?;
    if owner(game, x) == turn.level.player {
        let wanted = Wanted {
            label: region.but,
            before: u32::MAX,
        };
        let Some(w) = find_successor(game, space, turn, x, wanted)? else {
            return Ok(());
        };
        space.draft.set_choice(x, w);
    } else if space.knows_way_out(game, x, region) {
        return space.budget.spend(0);
    } else if space.pass_over(game, x, region)?.is_some() {
        return Ok(());
    }
    space.label.set(x, region.but);
    space.draft.set_winner(x, turn.level.player);
    space.taken.push(x)?;
    Ok(())
}

/// Attracts, of what has lost its support, to what is taken.
fn attract_again(
    rt: &(impl Threads + Sync),
    game: &Game,
    space: &mut Workspace,
    turn: Turn,
    region: Region,
) -> Result<(), Stop> {
    let attractor = Attractor {
        player: turn.level.player,
        open: turn.now,
        region,
    };
    space.attract(rt, game, attractor)
}

/// What stays of the rest is the player's; it attracts what it can of what the rest has lost.
pub(crate) fn regain_rest(
    rt: &(impl Threads + Sync),
    game: &Game,
    space: &mut Workspace,
    turn: Turn,
) -> Result<(), Stop> {
    let region = Region {
        stamp: space.fresh()?,
        from: turn.now,
        but: turn.level.rest,
    };
    space.taken.clear();
    for k in 0..space.part.len() {
        let Some(x) = item(&space.part, k) else { break };
        regain(game, space, turn, region, x)?;
    }
    attract_again(rt, game, space, turn, region)
}

/// Numbers what was attracted to the rest above all that stays of it.
pub(crate) fn number_rest(space: &mut Workspace, level: &mut Level) {
    for k in 0..space.taken.len() {
        let Some(v) = item(&space.taken, k) else {
            break
        };
        level.base = level.base.saturating_add(1);
        space.draft.set_count(v, level.below(), level.base);
    }
}
