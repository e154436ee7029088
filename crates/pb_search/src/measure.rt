//! A progress measure (Jurdzinski 2000) of winners and choices, by nested components.
//!
//! Where the loser has the greatest priority of a part, the part's components, last ones first,
//! give its vertices their counts at that priority: along a kept edge from one component to
//! another they fall. Within one a count at a lower priority has to fall. Where a component has a
//! cycle, its greatest priority is the winner's, or the choices don't win; without its vertices of
//! that priority the component is a part of its own.

mod parts;

use crate::arena::{Draft, Numbers};
use crate::budget::{Budget, Stop};
use crate::components::{Components, Within};
use crate::workspace::item;
use parts::greatest;
use pb_game::{Game, Player};
use std::alloc::{AllocError, Global};

/// The parts that are left to do, and the one under way.
#[derive(Drop)]
pub(crate) struct Measure {
    label: Numbers,
    clock: u32,
    components: Components,
    /// The vertices of all parts that are left, the last part behind the others.
    pending: Vec<u32>,
    /// Where each of these begins.
    starts: Vec<usize>,
    part: Vec<u32>,
}

/// Writes the counts of winners and choices.
pub(crate) fn write_measure(
    alloc: Global,
    game: &Game,
    draft: &mut Draft,
    budget: &mut Budget,
) -> Result<(), Stop> {
    let mut measure = Measure::new(alloc, game)?;
    measure.add_region(game, draft, budget, Player::Even)?;
    measure.run(game, draft, budget, Player::Even)?;
    measure.add_region(game, draft, budget, Player::Odd)?;
    measure.run(game, draft, budget, Player::Odd)
}

impl Measure {
    fn new(alloc: Global, game: &Game) -> Result<Measure, AllocError> {
        let vertices = game.len() as usize;
        Ok(Measure {
            label: Numbers::new(alloc, vertices)?,
            clock: 0,
            components: Components::new(alloc, vertices)?,
            pending: Vec::new(alloc),
            starts: Vec::new(alloc),
            part: Vec::new(alloc),
        })
    }

    /// Adds all that a player wins.
    fn add_region(
        &mut self,
        game: &Game,
        draft: &Draft,
        budget: &mut Budget,
        player: Player,
    ) -> Result<(), Stop> {
        budget.spend(game.len() as usize)?;
        let start = self.pending.len();
        for v in 0..game.len() {
            if draft.winner(v) == player {
                self.pending.push(v)?;
            }
        }
        self.cut(game, start, player)
    }

    /// Goes over all parts.
    fn run(
        &mut self,
        game: &Game,
        draft: &mut Draft,
        budget: &mut Budget,
        player: Player,
    ) -> Result<(), Stop> {
        for _ in 0..u64::MAX {
            let Some(start) = self.starts.pop() else {
                break
            };
            self.take(start, budget)?;
            self.find_components(game, draft, budget)?;
            let top = greatest(game, &self.part);
            let mut from = 0;
            for k in 0..self.components.ends.len() {
                let Some(to) = self.components.end(k) else {
                    break
                };
                self.take_component(from, to)?;
                for &v in &self.part {
                    draft.set_count(v, Some(top), (k as u64).saturating_add(1));
                }
                if self.has_cycle(game, draft) {
                    self.nest(game, budget, player)?;
                }
                from = to;
            }
        }
        Ok(())
    }

    /// Finds the components of the part under way, along the edges that the winner keeps.
    fn find_components(
        &mut self,
        game: &Game,
        draft: &Draft,
        budget: &mut Budget,
    ) -> Result<(), Stop> {
        let within = Within {
            game,
            label: &self.label,
            part: self.clock,
            strategy: Some(draft),
        };
        self.components.ends.clear();
        self.components.find(within, budget, &self.part)
    }

    /// Whether a kept edge stays in the component.
    fn has_cycle(&self, game: &Game, draft: &Draft) -> bool {
        let within = Within {
            game,
            label: &self.label,
            part: self.clock,
            strategy: Some(draft),
        };
        match item(&self.part, 0) {
            Some(v) => self.part.len() > 1 || within.has_loop(v),
            None => false,
        }
    }
}
