//! A turn of a level: the opponent wins what it attracts, and what thereby lost its support is
//! supported another way, or solved again.

use crate::arena::{owner, predecessors};
use crate::budget::Stop;
use crate::few::is_front_apart;
use crate::levels::{Level, Places, number_front};
use crate::rounds::look_ahead;
use crate::support::{Turn, number_rest, regain_front, regain_rest, replace};
use crate::workspace::{Workspace, item};
use pb_game::Game;
use std::thread::Threads;

/// The opponent wins what it attracts to what is taken; what is solved again stands first in the
/// level's part of the list then.
pub(crate) fn take_turn(
    rt: &(impl Threads + Sync),
    game: &Game,
    space: &mut Workspace,
    level: &mut Level,
) -> Result<(), Stop> {
    if is_front_apart(game, space, level)? {
        return Ok(());
    }
    concede(rt, game, space, level)?;
    let turn = Turn {
        level: *level,
        now: space.fresh()?,
    };
    lose_choices(game, space, turn)?;
    lose_front(game, space, turn)?;
    regain_front(rt, game, space, turn)?;
    number_front(space, level, 0)?;
    lose_rest(game, space, turn)?;
    regain_rest(rt, game, space, turn)?;
    number_rest(space, level);
    collect(space, level, turn.now)
}

/// The opponent wins what it attracts, round by round, to what is taken. Whose choice is gone is
/// hit.
fn concede(
    rt: &(impl Threads + Sync),
    game: &Game,
    space: &mut Workspace,
    level: &mut Level,
) -> Result<(), Stop> {
    space.hit.clear();
    let mut end = 0;
    for k in 0..usize::MAX {
        let Some(x) = item(&space.taken, k) else {
            break
        };
        if k == end {
            end = space.begin_round();
        }
        let row = predecessors(game, x);
        space.budget.spend(row.len())?;
        for &u in row {
            if space.label.get(u) >= level.front {
                concede_at(game, space, level, u, x)?;
                if space.turns_large() {
                    look_ahead(rt, game, space, level.forced(), k..end)?;
                }
            }
        }
    }
    level.undecided = level.undecided.saturating_sub(space.taken.len());
    Ok(())
}

/// The opponent wins the predecessor `u` of `x`, unless the player has a way out there.
fn concede_at(
    game: &Game,
    space: &mut Workspace,
    level: &mut Level,
    u: u32,
    x: u32,
) -> Result<(), Stop> {
    if owner(game, u) != level.player {
        space.draft.set_choice(u, x);
    } else if space.knows_way_out(game, u, level.region()) {
        space.budget.spend(0)?;
        return note_hit(space, u, x);
    } else if space.pass_over(game, u, level.region())?.is_some() {
        return note_hit(space, u, x);
    }
    space.label.set(u, 0);
    space.draft.set_winner(u, level.player.opponent());
    level.conceded = level.conceded.saturating_add(1);
    space.draft.set_count(u, Some(level.top), level.conceded);
    space.taken.push(u)?;
    Ok(())
}

/// The player's vertex `u` is hit where its choice was `x`.
#[inline]
fn note_hit(space: &mut Workspace, u: u32, x: u32) -> Result<(), Stop> {
    if space.draft.choice(u) == x {
        space.hit.push(u)?;
    }
    Ok(())
}

/// What was hit loses its support, unless it is a head or has another choice.
fn lose_choices(game: &Game, space: &mut Workspace, turn: Turn) -> Result<(), Stop> {
    space.lost.clear();
    space.part.clear();
    for k in 0..space.hit.len() {
        let Some(u) = item(&space.hit, k) else { break };
        space.budget.spend(0)?;
        let label = space.label.get(u);
        if label == turn.level.rest {
            space.label.set(u, turn.now);
            space.part.push(u)?;
        } else if label == turn.level.front && space.order.get(u) != 0 {
            if !replace(game, space, turn, u)? {
                space.label.set(u, turn.now);
                space.lost.push(u)?;
            }
        }
    }
    Ok(())
}

/// The front loses what rests on what it has lost.
fn lose_front(game: &Game, space: &mut Workspace, turn: Turn) -> Result<(), Stop> {
    for k in 0..usize::MAX {
        let Some(x) = item(&space.lost, k) else { break };
        let row = predecessors(game, x);
        space.budget.spend(row.len())?;
        for &u in row {
            if space.label.get(u) == turn.level.front && space.order.get(u) != 0 {
                if owner(game, u) == turn.level.player {
                    if space.draft.choice(u) != x || replace(game, space, turn, u)? {
                        continue;
                    }
                }
                space.label.set(u, turn.now);
                space.lost.push(u)?;
            }
        }
    }
    Ok(())
}

/// The rest loses what comes to it from the front, and what rests on what it has lost.
fn lose_rest(game: &Game, space: &mut Workspace, turn: Turn) -> Result<(), Stop> {
    for k in 0..space.lost.len() {
        let Some(v) = item(&space.lost, k) else { break };
        if space.label.get(v) == turn.now {
            space.part.push(v)?;
        }
    }
    for k in 0..usize::MAX {
        let Some(x) = item(&space.part, k) else { break };
        let row = predecessors(game, x);
        space.budget.spend(row.len())?;
        for &u in row {
            if space.label.get(u) == turn.level.rest {
                if owner(game, u) != turn.level.player || space.draft.choice(u) == x {
                    space.label.set(u, turn.now);
                    space.part.push(u)?;
                }
            }
        }
    }
    Ok(())
}

/// Puts what is solved again first in the level's part of the list.
fn collect(space: &mut Workspace, level: &mut Level, now: u32) -> Result<(), Stop> {
    space.budget.spend(space.part.len())?;
    level.inner = Places {
        from: level.part.from,
        to: level.part.from,
    };
    for k in 0..space.part.len() {
        let Some(v) = item(&space.part, k) else { break };
        if space.label.get(v) == now {
            let place = space.vertices.place(v);
            space.vertices.swap(place, level.inner.to)?;
            level.inner.to = level.inner.to.saturating_add(1);
        }
    }
    Ok(())
}
