//! Priority promotion (Benerecetti, Dell'Erba, Mogavero 2018).
//!
//! Each priority, from the greatest down, has a region: what its player attracts to the vertices of
//! the priority within what is left. Where the opponent can leave a region for greater ones alone,
//! it is promoted to the least of these; where it can't leave at all, the region is a dominion, and
//! its player wins what it attracts to it.

mod exits;
mod regions;

use crate::arena::{Draft, Numbers, owner, predecessors, priority};
use crate::budget::{Budget, Stop};
use crate::chains::Chains;
use exits::Exit;
use pb_game::{Game, Player};
use std::alloc::{AllocError, Global};

/// No choice yet.
const NONE: u32 = u32::MAX;
/// The rank of what is decided.
const DECIDED: u32 = u32::MAX;

/// The regions so far.
#[derive(Drop)]
pub(crate) struct Promotion {
    /// Of each vertex twice the priority of its region, and one more once it is taken in there.
    rank: Numbers,
    /// What isn't decided.
    left: Vec<u32>,
    /// For each priority its vertices that aren't decided.
    heads: Chains,
    /// For each priority what its region has taken in.
    regions: Chains,
    draft: Draft,
}

/// Winners and choices of the whole game, with no measure.
pub(crate) fn promote(alloc: Global, game: &Game, budget: &mut Budget) -> Result<Draft, Stop> {
    let mut promotion = Promotion::new(alloc, game)?;
    promotion.start_again(game);
    let mut p = game.greatest_priority();
    for _ in 0..u64::MAX {
        if promotion.left.is_empty() {
            break;
        }
        budget.spend(0)?;
        promotion.take_heads(budget, p)?;
        promotion.attract(game, budget, p)?;
        let mut exit = Exit::Below;
        if promotion.regions.first(p).is_some() {
            exit = promotion.exit(game, budget, p)?;
        }
        match exit {
            Exit::Below => {
                let Some(lower) = p.checked_sub(1) else {
                    return Err(Stop::GaveUp);
                };
                p = lower;
            }
            Exit::Above(greater) => {
                promotion.promote(game, budget, p, greater)?;
                p = greater;
            }
            Exit::Nowhere => {
                promotion.win(game, budget, p)?;
                p = game.greatest_priority();
            }
        }
    }
    let Promotion { draft, .. } = promotion;
    Ok(draft)
}

impl Promotion {
    fn new(alloc: Global, game: &Game) -> Result<Promotion, AllocError> {
        let vertices = game.len() as usize;
        let mut left = Vec::with_capacity(alloc, vertices)?;
        for v in 0..game.len() {
            left.push(v)?;
        }
        let draft = Draft::new(alloc, game)?;
        let priorities = draft.width as usize;
        Ok(Promotion {
            rank: Numbers::new(alloc, vertices)?,
            left,
            heads: Chains::new(alloc, vertices, priorities)?,
            regions: Chains::new(alloc, vertices, priorities)?,
            draft,
        })
    }

    /// Forgets all regions, and leaves out what is decided.
    fn start_again(&mut self, game: &Game) {
        for p in 0..self.draft.width {
            self.heads.clear(p);
            self.regions.clear(p);
        }
        let rank = &self.rank;
        self.left.retain(|&v| rank.get(v) != DECIDED);
        for &v in &self.left {
            let p = priority(game, v);
            self.rank.set(v, rank_below(p));
            self.heads.push(p, v);
        }
    }

    /// Takes a vertex into a region, with a choice.
    fn take(&mut self, p: u32, v: u32, choice: u32) {
        self.rank.set(v, rank_below(p).saturating_add(1));
        self.draft.set_choice(v, choice);
        self.regions.push(p, v);
    }

    /// Joins a region to a greater one, and forgets those below that.
    fn promote(
        &mut self,
        game: &Game,
        budget: &mut Budget,
        p: u32,
        greater: u32,
    ) -> Result<(), Stop> {
        let mut taken = self.regions.first(p);
        self.regions.clear(p);
        for _ in 0..u64::MAX {
            let Some(v) = taken else { break };
            budget.spend(0)?;
            taken = self.regions.after(v);
            self.rank.set(v, rank_below(greater).saturating_add(1));
            self.regions.push(greater, v);
        }
        for q in 0..greater {
            let mut taken = self.regions.first(q);
            for _ in 0..u64::MAX {
                let Some(v) = taken else { break };
                budget.spend(0)?;
                taken = self.regions.after(v);
                self.rank.set(v, rank_below(priority(game, v)));
            }
            self.regions.clear(q);
        }
        Ok(())
    }

    /// The player of a region that can't be left wins what it attracts to it.
    fn win(&mut self, game: &Game, budget: &mut Budget, p: u32) -> Result<(), Stop> {
        let player = Player::of_priority(p);
        let mut taken = self.regions.first(p);
        for _ in 0..u64::MAX {
            let Some(v) = taken else { break };
            self.rank.set(v, DECIDED);
            self.draft.set_winner(v, player);
            taken = self.regions.after(v);
        }
        taken = self.regions.first(p);
        for _ in 0..u64::MAX {
            let Some(x) = taken else { break };
            let row = predecessors(game, x);
            budget.spend(row.len())?;
            for &u in row {
                if self.rank.get(u) == DECIDED {
                    continue;
                }
                if owner(game, u) != player && self.leads_below(game, budget, u, DECIDED)? {
                    continue;
                }
                self.take(p, u, x);
                self.rank.set(u, DECIDED);
                self.draft.set_winner(u, player);
            }
            taken = self.regions.after(x);
        }
        budget.spend(self.left.len())?;
        self.start_again(game);
        Ok(())
    }
}

/// The rank of what has a priority, and isn't taken into its region.
fn rank_below(p: u32) -> u32 {
    p.saturating_mul(2)
}
