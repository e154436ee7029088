//! The parts of a region that a measure goes over.

use super::Measure;
use crate::arena::priority;
use crate::budget::{Budget, Stop};
use crate::workspace::item;
use pb_game::{Game, Player};

impl Measure {
    /// Adds the vertices from a place on as a part, without those above the loser's greatest
    /// priority, if the loser has one there.
    pub fn cut(&mut self, game: &Game, start: usize, player: Player) -> Result<(), Stop> {
        let mut greatest = None;
        for k in start..self.pending.len() {
            let Some(v) = item(&self.pending, k) else {
                break
            };
            let p = priority(game, v);
            if Player::of_priority(p) != player {
                greatest = greatest.max(Some(p));
            }
        }
        let mut end = start;
        if let Some(greatest) = greatest {
            for k in start..self.pending.len() {
                let Some(v) = item(&self.pending, k) else {
                    break
                };
                if priority(game, v) <= greatest && end < self.pending.len() {
                    self.pending[end] = v;
                    end += 1;
                }
            }
            self.starts.push(start)?;
        }
        self.pending.truncate(end);
        Ok(())
    }

    /// Takes the last part, which begins at this place, and labels it.
    pub fn take(&mut self, start: usize, budget: &mut Budget) -> Result<(), Stop> {
        if self.clock == u32::MAX {
            return Err(Stop::GaveUp);
        }
        self.clock += 1;
        self.part.clear();
        for k in start..self.pending.len() {
            let Some(v) = item(&self.pending, k) else {
                break
            };
            self.label.set(v, self.clock);
            self.part.push(v)?;
        }
        self.pending.truncate(start);
        budget.spend(self.part.len())
    }

    /// Takes a component as the part under way.
    pub fn take_component(&mut self, from: usize, to: usize) -> Result<(), Stop> {
        self.part.clear();
        for k in from..to {
            let Some(v) = item(&self.components.order, k) else {
                break
            };
            self.part.push(v)?;
        }
        Ok(())
    }

    /// Adds a component without the vertices of its greatest priority, which has to be the
    /// winner's.
    pub fn nest(&mut self, game: &Game, budget: &mut Budget, player: Player) -> Result<(), Stop> {
        budget.spend(self.part.len())?;
        let top = greatest(game, &self.part);
        if Player::of_priority(top) != player {
            return Err(Stop::GaveUp);
        }
        let start = self.pending.len();
        for &v in &self.part {
            if priority(game, v) != top {
                self.pending.push(v)?;
            }
        }
        self.cut(game, start, player)
    }
}

/// The greatest priority of these vertices.
pub(crate) fn greatest(game: &Game, part: &[u32]) -> u32 {
    let mut greatest = 0;
    for &v in part {
        greatest = priority(game, v).max(greatest);
    }
    greatest
}
