//! Zielonka's recursion (Zielonka 1998), whose levels keep their front between turns.
//!
//! A level solves a subgame: the player of its greatest priority attracts the vertices of that
//! priority, its heads, and what is attracted is the front. The rest is solved by the next level.
//! Where the opponent wins a part of it, the opponent wins what it attracts from the whole, and the
//! next turn solves again what thereby lost its support, and that alone ([`crate::turns`]).

use crate::budget::Stop;
use crate::levels::{Part, close, greatest, open, read_back};
use crate::split::Split;
use crate::turns::take_turn;
use crate::workspace::Workspace;
use pb_game::Game;
use std::thread::Threads;

/// Solves a subgame, in turns.
#[cycle(levels)]
pub(crate) fn solve(
    rt: &(impl Threads + Sync),
    game: &Game,
    space: &mut Workspace,
    part: Part,
) -> Result<(), Stop> {
    if part.to <= part.from {
        return Ok(());
    }
    let top = greatest(game, space, part)?;
    if part.limit <= top {
        return Err(Stop::GaveUp);
    }
    let mut level = open(rt, game, space, part, top)?;
    for _ in 0..u64::MAX {
        let inner = Part {
            from: level.inner.from,
            to: level.inner.to,
            limit: top,
        };
        let is_split = solve_parts(rt, game, space, inner)?;
        read_back(space, &mut level, is_split)?;
        if space.taken.is_empty() {
            break;
        }
        take_turn(rt, game, space, &mut level)?;
    }
    close(game, space, &level)
}

/// Solves a subgame component by component, where these are asked for and there are several of
/// them, and else at once. Whether it was split.
#[cycle(levels)]
pub(crate) fn solve_parts(
    rt: &(impl Threads + Sync),
    game: &Game,
    space: &mut Workspace,
    part: Part,
) -> Result<bool, Stop> {
    let mut split = match Split::new(game, space, part)? {
        Some(split) => split,
        None => {
            solve(rt, game, space, part)?;
            return Ok(false);
        }
    };
    for _ in 0..u64::MAX {
        let Some(to) = split.next(space)? else { break };
        let component = Part {
            from: split.start,
            to,
            limit: part.limit,
        };
        solve(rt, game, space, component)?;
        split.settle(rt, game, space, component)?;
    }
    split.close(space);
    Ok(true)
}
