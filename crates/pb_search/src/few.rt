//! Where an attractor begins with many vertices and few others are there, it is quicker to look
//! from these whether it comes to any of them than to go over all that it begins with. Only
//! vertices with few successors are asked, since the same ones may be few in many turns.

use crate::arena::{owner, successors};
use crate::budget::Stop;
use crate::levels::{Level, Places};
use crate::workspace::{Attractor, Workspace, item};
use pb_game::Game;

/// Up to so many vertices are few.
pub(crate) const FEW: usize = 16;

/// Whether the attractor may take in a vertex of the level's rest, as far as the taken vertices
/// tell. Of a rest of few vertices, which are listed, each is asked where more are taken.
pub(crate) fn may_attract(
    game: &Game,
    space: &mut Workspace,
    attractor: Attractor,
) -> Result<bool, Stop> {
    if FEW < space.part.len() || space.taken.len() <= space.part.len() {
        return Ok(true);
    }
    for k in 0..space.part.len() {
        let Some(v) = item(&space.part, k) else { break };
        if is_attracted(game, space, attractor, v)? {
            return Ok(true);
        }
    }
    Ok(false)
}

/// Whether the player can move from `v` to what is taken, or the opponent has no way out there. Of
/// many successors none is looked at.
fn is_attracted(
    game: &Game,
    space: &mut Workspace,
    attractor: Attractor,
    v: u32,
) -> Result<bool, Stop> {
    let row = successors(game, v);
    if FEW < row.len() {
        return Ok(true);
    }
    let is_own = owner(game, v) == attractor.player;
    for &u in row {
        space.budget.spend(0)?;
        let label = space.label.get(u);
        if is_own && label == attractor.region.but {
            return Ok(true);
        }
        if !is_own && attractor.region.has(label) {
            return Ok(false);
        }
    }
    Ok(!is_own)
}

/// Whether the opponent has won all of the level but its front, and that is few vertices from which
/// no edge leads to what is decided. Then the opponent attracts nothing, and nothing loses its
/// support: the front is all that is left.
pub(crate) fn is_front_apart(
    game: &Game,
    space: &mut Workspace,
    level: &mut Level,
) -> Result<bool, Stop> {
    let solved = level.inner.len();
    let front = level.part.len().saturating_sub(solved);
    let is_won = level.undecided == level.part.len() && space.taken.len() == solved;
    if FEW < front || solved <= front || !is_won {
        return Ok(false);
    }
    let sides = sides_of_front(level);
    if lead_to_decided(game, space, sides.before)? || lead_to_decided(game, space, sides.behind)? {
        return Ok(false);
    }
    level.undecided = front;
    level.left = sides.span();
    level.inner.to = level.inner.from;
    Ok(true)
}

/// Whether an edge may lead from the vertices at these places to what is decided.
fn lead_to_decided(game: &Game, space: &mut Workspace, places: Places) -> Result<bool, Stop> {
    for k in places.from..places.to {
        let Some(v) = space.vertices.vertex(k) else {
            break
        };
        if leads_to_decided(game, space, v)? {
            return Ok(true);
        }
    }
    Ok(false)
}

/// Whether an edge may lead from `v` to what is decided: of many successors none is looked at.
fn leads_to_decided(game: &Game, space: &mut Workspace, v: u32) -> Result<bool, Stop> {
    let row = successors(game, v);
    if FEW < row.len() {
        return Ok(true);
    }
    for &u in row {
        space.budget.spend(0)?;
        if space.label.get(u) == 0 {
            return Ok(true);
        }
    }
    Ok(false)
}

/// Where the list has the front, before a turn: on both sides of what is solved.
#[derive(Clone, Copy)]
struct Sides {
    before: Places,
    behind: Places,
}

impl Sides {
    /// The places from the first vertex of the front to the last one.
    fn span(self) -> Places {
        if self.before.len() == 0 {
            return self.behind;
        }
        if self.behind.len() == 0 {
            return self.before;
        }
        Places {
            from: self.before.from,
            to: self.behind.to,
        }
    }
}

fn sides_of_front(level: &Level) -> Sides {
    Sides {
        before: Places {
            from: level.part.from,
            to: level.inner.from,
        },
        behind: Places {
            from: level.inner.to,
            to: level.part.to,
        },
    }
}
