//! Whether a vertex meets the rules of a certificate, by one look at each kept edge. Which rule
//! fails first is looked for only where one does (`edges`).

ghost use Rattle.std.specs.Prelude.{◌≡◌, ◌≢◌, ℕ, ◌<◌, IsTrue};
ghost use Rattle.pb_game.specs.Games.{vertex_count, HasEdge};
ghost use Rattle.pb_game.specs.Certificates.{IsCertifiedAt};
ghost use Rattle.pb_strategy.specs.Comparisons.{MeetsRules};

use crate::position::Position;
use std::cmp::Ordering;

impl Position<'_> {
    /// Whether all rules are met.
    pub(crate) fn is_certified(&self) -> bool
        ensures { IsTrue result
            → IsCertifiedAt self.now.game.now self.now.solution.now self.now.number }
    {
        if self.game.owner(self.number) == self.solution.winner(self.number) {
            let choice = self.solution.choice(self.number);
            self.has_edge(choice) && self.meets_rules(choice)
        } else {
            self.meets_rules_everywhere()
        }
    }

    /// Whether the rules are met along all edges.
    fn meets_rules_everywhere(&self) -> bool
        ensures { IsTrue result → (u : ℕ) → HasEdge self.now.game.now self.now.number u
            → MeetsRules self.now u }
    {
        for &target in self.game.successors(self.number) {
            if !self.meets_rules(target) {
                return false;
            }
        }
        true
    }

    /// Whether the rules are met along the edge to `u`, if it is kept.
    fn meets_rules(&self, u: u32) -> bool
        requires { u < vertex_count self.now.game.now }
        ensures { IsTrue result → MeetsRules self.now u }
    {
        let winner = self.solution.winner(self.number);
        if self.solution.winner(u) != winner {
            return false;
        }
        match self.compare(u) {
            Ordering::Less => true,
            Ordering::Equal => self.game.priority(self.number) % 2 == winner.parity(),
            Ordering::Greater => false,
        }
    }
}
