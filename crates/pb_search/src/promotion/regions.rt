//! How regions grow.

use super::{NONE, Promotion, rank_below};
use crate::arena::{owner, predecessors, successors};
use crate::budget::{Budget, Stop};
use pb_game::{Game, Player};

impl Promotion {
    /// Takes the vertices of a priority into its region, except those that greater ones have.
    pub fn take_heads(&mut self, budget: &mut Budget, p: u32) -> Result<(), Stop> {
        let mut head = self.heads.first(p);
        for _ in 0..u64::MAX {
            let Some(v) = head else { break };
            budget.spend(0)?;
            if self.rank.get(v) == rank_below(p) {
                self.take(p, v, NONE);
            }
            head = self.heads.after(v);
        }
        Ok(())
    }

    /// Takes in what the player of a region attracts to it from what is below.
    pub fn attract(&mut self, game: &Game, budget: &mut Budget, p: u32) -> Result<(), Stop> {
        let inside = rank_below(p).saturating_add(1);
        let mut taken = self.regions.first(p);
        for _ in 0..u64::MAX {
            let Some(x) = taken else { break };
            let row = predecessors(game, x);
            budget.spend(row.len())?;
            for &u in row {
                if self.rank.get(u) >= inside {
                    continue;
                }
                if owner(game, u) == Player::of_priority(p) {
                    self.take(p, u, x);
                } else if !self.leads_below(game, budget, u, inside)? {
                    self.take(p, u, NONE);
                }
            }
            taken = self.regions.after(x);
        }
        Ok(())
    }

    /// Whether a successor of `u` has a rank below this one.
    pub fn leads_below(
        &self,
        game: &Game,
        budget: &mut Budget,
        u: u32,
        rank: u32,
    ) -> Result<bool, Stop> {
        for &w in successors(game, u) {
            budget.spend(0)?;
            if self.rank.get(w) < rank {
                return Ok(true);
            }
        }
        Ok(false)
    }
}
