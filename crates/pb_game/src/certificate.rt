//! Certificates of a parity game's winners.
//!
//! A [`Solution`] names for each vertex the player who wins from there, that player's choice where
//! it moves, and one count for each priority: a progress measure (Jurdzinski 2000). It is a
//! certificate of its game where the five rules of [`CertificateRule`] hold. All certificates of a
//! game name the same winners (`winners_agree` of pb_lifting), and in the game of a system's trees
//! these are the truths of its instances (laws of pb_strategy).

ghost use Rattle.std.specs.Prelude.{◌≡◌, ◌+◌, ◌*◌, ◌^◌, ◌<◌, length};
ghost use Rattle.pb_game.specs.Games.{vertex_count, priority_count};
ghost use Rattle.pb_game.specs.Solutions.{winner_of, choice_of, count_of, HasLengths};

use crate::{Game, Player};
use std::fmt;

/// For each vertex its winner, the winner's choice, and one count for each priority. Vertex `v`'s
/// counts stand from `v * (d + 1)`, where `d` is the game's greatest priority.
#[derive(Drop)]
pub struct Solution {
    pub winner: Vec<Player>,
    pub choice: Vec<u32>,
    pub counts: Vec<u64>,
}

/// The rules of a certificate, in the order in which they are tried at a vertex.
///
/// An edge is kept where the winner of the vertex that it leaves doesn't move there, or chose it.
#[derive(Clone, Copy, PartialEq, Eq, Debug)]
pub enum CertificateRule {
    /// K05: a list has a wrong length. It counts at vertex 0, before all others.
    Length,
    /// K01: the winner's choice is no successor.
    NoSuccessor,
    /// K02: a kept edge leaves the winner's region.
    LeavesRegion,
    /// K03: along a kept edge the counts of the loser's parity from the vertex's priority on
    /// increase.
    Increases,
    /// K04: the priority has the loser's parity, and along a kept edge those counts don't decrease.
    NoDecrease,
}

impl CertificateRule {
    ghost use Rattle.pb_game.specs.FlawText.{rule_number};

    /// The rule's number, as `K01`.
    pub fn number(self) -> &'static str
        ensures { result.now ≡ rule_number self }
    {
        match self {
            CertificateRule::Length => "K05",
            CertificateRule::NoSuccessor => "K01",
            CertificateRule::LeavesRegion => "K02",
            CertificateRule::Increases => "K03",
            CertificateRule::NoDecrease => "K04",
        }
    }
}

impl fmt::Display for CertificateRule {
    ghost use Rattle.std.specs.Prelude.{Some};
    ghost use Rattle.pb_game.specs.FlawText.{rule_number};

    ghost output = { λ rule. Some (rule_number rule) };

    fn fmt<W: fmt::Write>(&self, f: &mut fmt::Formatter<W>) -> fmt::Result {
        f.write_str(self.number())
    }
}

/// The least vertex at which a rule fails, and the first such rule. It shows as `K04 vertex 2`.
#[derive(Clone, Copy, PartialEq, Eq, Debug)]
pub struct Flaw {
    pub vertex: u32,
    pub rule: CertificateRule,
}

impl fmt::Display for Flaw {
    ghost use Rattle.std.specs.Prelude.{Some};
    ghost use Rattle.pb_game.specs.FlawText.{flaw_text};

    ghost output = { λ flaw. Some (flaw_text flaw) };

    fn fmt<W: fmt::Write>(&self, f: &mut fmt::Formatter<W>) -> fmt::Result {
        write!(f, "{} vertex {}", self.rule, self.vertex)
    }
}

impl Solution {
    /// The player who wins `v`.
    #[tactic(auto, unfolding(crate::specs::Solutions::winner_of))]
    pub fn winner(&self, v: u32) -> Player
        requires { v < length self.now.winner.items }
        ensures { result ≡ winner_of self.now v }
    {
        self.winner[v as usize]
    }

    /// The winner's choice at `v`.
    #[tactic(auto, unfolding(crate::specs::Solutions::choice_of))]
    pub fn choice(&self, v: u32) -> u32
        requires { v < length self.now.choice.items }
        ensures { result ≡ choice_of self.now v }
    {
        self.choice[v as usize]
    }

    /// The count of `v` at a priority.
    #[tactic(auto, unfolding(crate::specs::Solutions::count_of))]
    pub fn count(&self, game: &Game, v: u32, priority: u32) -> u64
        requires lengths { HasLengths game.now self.now }
        requires vertex { v < vertex_count game.now }
        requires priority { priority < priority_count game.now }
        ensures { result ≡ count_of game.now self.now v priority }
    {
        let width = game.greatest_priority() as usize + 1;
        self.counts[v as usize * width + priority as usize]
    }
}
