//! How regions can be left.

use super::{DECIDED, NONE, Promotion, rank_below};
use crate::arena::{owner, successors};
use crate::budget::{Budget, Stop};
use pb_game::{Game, Player};

/// Whether the opponent can leave a region.
#[derive(Clone, Copy, PartialEq, Eq)]
pub(crate) enum Exit {
    /// To what is below, or the player can't stay.
    Below,
    /// To greater regions alone, of which this is the least priority.
    Above(u32),
    Nowhere,
}

impl Promotion {
    /// Whether the opponent can leave a region. Heads get their choice.
    pub fn exit(&mut self, game: &Game, budget: &mut Budget, p: u32) -> Result<Exit, Stop> {
        let mut exit = Exit::Nowhere;
        let mut taken = self.regions.first(p);
        for _ in 0..u64::MAX {
            let Some(v) = taken else { break };
            budget.spend(successors(game, v).len())?;
            exit = if owner(game, v) == Player::of_priority(p) {
                self.stay(game, p, v, exit)
            } else {
                self.exit_at(game, p, v, exit)
            };
            if exit == Exit::Below {
                break;
            }
            taken = self.regions.after(v);
        }
        Ok(exit)
    }

    /// How the opponent can leave a region by its player's vertex `v`: below, if `v` has no
    /// successor inside.
    fn stay(&mut self, game: &Game, p: u32, v: u32, exit: Exit) -> Exit {
        if self.draft.choice(v) != NONE {
            return exit;
        }
        for &w in successors(game, v) {
            if self.rank.get(w) == rank_below(p).saturating_add(1) {
                self.draft.set_choice(v, w);
                return exit;
            }
        }
        Exit::Below
    }

    /// How the opponent can leave a region by its own vertex `v`, or as it could before.
    fn exit_at(&self, game: &Game, p: u32, v: u32, exit: Exit) -> Exit {
        let mut exit = exit;
        for &w in successors(game, v) {
            let rank = self.rank.get(w);
            if rank == DECIDED {
                continue;
            }
            if rank < rank_below(p) {
                return Exit::Below;
            }
            let greater = rank / 2;
            if p < greater {
                exit = match exit {
                    Exit::Above(least) => Exit::Above(least.min(greater)),
                    _ => Exit::Above(greater),
                };
            }
        }
        exit
    }
}
