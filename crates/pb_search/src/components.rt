//! Strongly connected components (Tarjan 1972) of a part of a game, with no recursion.

use crate::arena::{Draft, Numbers, owner, successors};
use crate::budget::{Budget, Stop};
use pb_game::Game;
use std::alloc::{AllocError, Global};

/// A part of a game: the vertices of a label. With a strategy its edges are those that it keeps:
/// where a vertex's winner moves, the choice alone.
#[derive(Clone, Copy)]
pub(crate) struct Within<'g, 'l, 's> {
    pub game: &'g Game,
    pub label: &'l Numbers,
    pub part: u32,
    pub strategy: Option<&'s Draft>,
}

impl Within<'_, '_, '_> {
    /// Whether the edge from `v` to `u` is one of the part's.
    #[inline]
    pub fn has_edge(&self, v: u32, u: u32) -> bool {
        if self.label.get(u) != self.part {
            return false;
        }
        match self.strategy {
            Some(draft) => draft.choice(v) == u || draft.winner(v) != owner(self.game, v),
            None => true,
        }
    }

    /// Whether the part has an edge from `v` to itself.
    pub fn has_loop(&self, v: u32) -> bool {
        for &u in successors(self.game, v) {
            if u == v {
                return self.has_edge(v, u);
            }
        }
        false
    }
}

/// A vertex of the path under way, and which of its successors comes next.
#[derive(Clone, Copy)]
struct Step {
    vertex: u32,
    place: usize,
}

/// What the search for components works in, and what it finds: components, last ones first, so that
/// edges between two lead to the earlier one.
#[derive(Drop)]
pub(crate) struct Components {
    /// The vertices, component by component.
    pub order: Vec<u32>,
    /// Where each component ends in that list, of this search behind those that were there before.
    pub ends: Vec<usize>,
    /// In which order the vertices were come upon; the greatest number where the component is
    /// known.
    number: Numbers,
    /// The least number that is reached from there within the component, as far as is known.
    low: Numbers,
    count: u32,
    stack: Vec<u32>,
    path: Vec<Step>,
}

impl Components {
    pub fn new(alloc: Global, vertices: usize) -> Result<Components, AllocError> {
        Ok(Components {
            order: Vec::new(alloc),
            ends: Vec::new(alloc),
            number: Numbers::new(alloc, vertices)?,
            low: Numbers::new(alloc, vertices)?,
            count: 0,
            stack: Vec::new(alloc),
            path: Vec::new(alloc),
        })
    }

    /// Where the k-th component ends.
    pub fn end(&self, k: usize) -> Option<usize> {
        if k < self.ends.len() {
            Some(self.ends[k])
        } else {
            None
        }
    }

    /// Finds the components of a part, whose vertices are listed.
    pub fn find(
        &mut self,
        within: Within<'_, '_, '_>,
        budget: &mut Budget,
        list: &[u32],
    ) -> Result<(), Stop> {
        self.order.clear();
        self.stack.clear();
        self.path.clear();
        self.count = 0;
        for &v in list {
            self.number.set(v, 0);
        }
        for &v in list {
            if self.number.get(v) == 0 {
                self.visit(within, budget, v)?;
            }
        }
        Ok(())
    }

    /// Goes along all that is reached from a vertex and wasn't come upon before.
    fn visit(
        &mut self,
        within: Within<'_, '_, '_>,
        budget: &mut Budget,
        root: u32,
    ) -> Result<(), Stop> {
        let mut v = root;
        let mut place = 0;
        self.enter(v)?;
        for _ in 0..u64::MAX {
            if let Some(next) = self.next_step(within, v, place) {
                self.path.push(Step {
                    vertex: v,
                    place: next.place,
                })?;
                v = next.vertex;
                place = 0;
                self.enter(v)?;
                continue;
            }
            budget.spend(successors(within.game, v).len())?;
            self.leave(v)?;
            let Some(step) = self.path.pop() else { break };
            let low = self.low.get(step.vertex).min(self.low.get(v));
            self.low.set(step.vertex, low);
            v = step.vertex;
            place = step.place;
        }
        Ok(())
    }

    fn enter(&mut self, v: u32) -> Result<(), Stop> {
        self.count = self.count.saturating_add(1);
        self.number.set(v, self.count);
        self.low.set(v, self.count);
        self.stack.push(v)?;
        Ok(())
    }

    /// The first successor of `v`, from a place on, that wasn't come upon before, and the place
    /// behind it.
    fn next_step(&mut self, within: Within<'_, '_, '_>, v: u32, place: usize) -> Option<Step> {
        let row = successors(within.game, v);
        let mut low = self.low.get(v);
        for k in place..row.len() {
            let w = row[k];
            if within.has_edge(v, w) {
                let number = self.number.get(w);
                if number == 0 {
                    self.low.set(v, low);
                    return Some(Step {
                        vertex: w,
                        place: k + 1,
                    });
                }
                low = low.min(number);
            }
        }
        self.low.set(v, low);
        None
    }

    /// Closes the component of `v`, if `v` is the first of it that was come upon.
    fn leave(&mut self, v: u32) -> Result<(), Stop> {
        if self.low.get(v) != self.number.get(v) {
            return Ok(());
        }
        for _ in 0..u64::MAX {
            let Some(u) = self.stack.pop() else { break };
            self.number.set(u, u32::MAX);
            self.order.push(u)?;
            if u == v {
                break;
            }
        }
        self.ends.push(self.order.len())?;
        Ok(())
    }
}
