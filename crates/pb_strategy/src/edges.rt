//! The tests of one vertex: its kept edges, and how the counts change along them.

ghost use Rattle.std.specs.Prelude.{◌≡◌, ◌≢◌, ℕ, ◌+◌, ◌%◌, ◌<◌, ◌≤◌, ◌↔◌, length, IsTrue};
ghost use Rattle.std.specs.Prelude.{MatchBool, MatchOption};
ghost use Rattle.pb_game.specs.Games.{vertex_count, priority_count, HasEdge};
ghost use Rattle.pb_game.specs.Solutions.{winner_of};
ghost use Rattle.pb_game.specs.Certificates.{IsCertifiedAt};
ghost use Rattle.pb_game.specs.Flaws.{LeavesAlong, IncreasesAlong, StaysAlong};
ghost use Rattle.pb_game.specs.Flaws.{IsFirstRule};
ghost use Rattle.pb_strategy.specs.Comparisons.{Compares, DecreasesAlong, DontIncrease, EachKept};

use crate::position::Position;
use pb_game::CertificateRule;
use std::cmp::Ordering;

impl Position<'_> {
    /// The first rule that fails, by a look at all edges for each rule where one does.
    pub(crate) fn first_rule(&self) -> Option<CertificateRule>
        ensures { MatchOption result
            (IsCertifiedAt self.now.game.now self.now.solution.now self.now.number)
            (λ rule. IsFirstRule self.now.game.now self.now.solution.now self.now.number rule) }
    {
        if self.is_certified() {
            return None;
        }
        let winner = self.solution.winner(self.number);
        if self.game.owner(self.number) == winner {
            if !self.has_edge(self.solution.choice(self.number)) {
                return Some(CertificateRule::NoSuccessor);
            }
        }
        if self.leaves_region() {
            return Some(CertificateRule::LeavesRegion);
        }
        if self.increases() {
            return Some(CertificateRule::Increases);
        }
        if self.game.priority(self.number) % 2 != winner.parity() {
            if self.stays() {
                return Some(CertificateRule::NoDecrease);
            }
        }
        None
    }

    /// Whether `u` is a successor, as the winner's choice has to be (K01).
    pub(crate) fn has_edge(&self, u: u32) -> bool
        ensures { IsTrue result ↔ HasEdge self.now.game.now self.now.number u }
    {
        for &target in self.game.successors(self.number) {
            if target == u {
                return true;
            }
        }
        false
    }

    /// Whether a kept edge leaves the winner's region (K02).
    fn leaves_region(&self) -> bool
        ensures { MatchBool result
            ((u : ℕ) × LeavesAlong self.now.game.now self.now.solution.now self.now.number u)
            (EachKept self.now (λ u. winner_of self.now.solution.now u
            ≡ winner_of self.now.solution.now self.now.number)) }
    {
        for &target in self.game.successors(self.number) {
            if self.keeps(target) {
                if self.solution.winner(target) != self.solution.winner(self.number) {
                    return true;
                }
            }
        }
        false
    }

    /// Whether the counts increase along a kept edge (K03).
    fn increases(&self) -> bool
        ensures { MatchBool result
            ((u : ℕ) × IncreasesAlong self.now.game.now self.now.solution.now self.now.number u)
            (EachKept self.now (DontIncrease self.now)) }
    {
        for &target in self.game.successors(self.number) {
            if self.keeps(target) {
                if self.compare(target) == Ordering::Greater {
                    return true;
                }
            }
        }
        false
    }

    /// Whether the counts don't decrease along a kept edge (K04).
    fn stays(&self) -> bool
        ensures { MatchBool result
            ((u : ℕ) × StaysAlong self.now.game.now self.now.solution.now self.now.number u)
            (EachKept self.now (DecreasesAlong self.now)) }
    {
        for &target in self.game.successors(self.number) {
            if self.keeps(target) {
                if self.compare(target) != Ordering::Less {
                    return true;
                }
            }
        }
        false
    }

    /// How the counts that matter to the winner change to those of `u`: the highest priority comes
    /// first.
    pub(crate) fn compare(&self, u: u32) -> Ordering
        requires { u < vertex_count self.now.game.now }
        ensures { Compares self.now u result }
    {
        let parity = self.solution.winner(self.number).parity();
        let lowest = self.game.priority(self.number);
        for place in (lowest..=self.game.greatest_priority()).rev() {
            if place % 2 != parity {
                let from = self.solution.count(self.game, self.number, place);
                let to = self.solution.count(self.game, u, place);
                if to != from {
                    return to.cmp(&from);
                }
            }
        }
        Ordering::Equal
    }
}
