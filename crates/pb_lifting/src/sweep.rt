//! Lifting by one thread, until no lift raises a word.
ghost use Rattle.std.specs.Prelude.{◌≡◌, length};
ghost use Rattle.pb_game.specs.Games.{vertex_count};
ghost use Rattle.pb_lifting.specs.Measures.{least_rank, IsFixed, IsLeastMeasure};
ghost use Rattle.pb_lifting.specs.Sweep.{AreLifted, AreWords, IsSweptAt, IsSweptOnce};

use crate::ranking::{RankedVertex, Ranking};
use crate::scale::{better_rank, rank_before_successors};

/// The least rank of a vertex over the words.
fn least_of(at: &RankedVertex<'_>, words: &[u64]) -> u64
    requires { length words.now ≡ vertex_count at.now.ranking.game.now }
    ensures { result
        ≡ least_rank at.now.ranking.game.now at.now.ranking.player words.now at.now.number }
{
    let game = at.ranking.game;
    let own = game.owner(at.number) == at.ranking.player;
    let mut rank = rank_before_successors(own, at.ranking.top());
    for target in game.successors(at.number) {
        let reached = words[*target as usize];
        rank = better_rank(own, rank, at.asked(reached));
    }
    rank
}

/// Lifts one word. True where it was raised.
fn sweep_vertex(at: &RankedVertex<'_>, words: &mut Vec<u64>) -> bool
    requires { AreWords at.now.ranking.game.now at.now.ranking.player words.old.items }
    ensures words { AreWords at.now.ranking.game.now at.now.ranking.player words.new.items }
    ensures raised { IsSweptAt at.now.ranking.game.now at.now.ranking.player at.now.number
        result words.old.items words.new.items }
{
    let v = at.number as usize;
    let rank = least_of(at, words.as_slice());
    if words[v] < rank {
        words[v] = rank;
        true
    } else {
        false
    }
}

/// Lifts each word once. True where one was raised.
fn sweep_pass(ranking: &Ranking<'_>, words: &mut Vec<u64>) -> bool
    requires { AreWords ranking.now.game.now ranking.now.player words.old.items }
    ensures words { AreWords ranking.now.game.now ranking.now.player words.new.items }
    ensures raised { IsSweptOnce ranking.now.game.now ranking.now.player result words.old.items
        words.new.items }
{
    let mut raised = false;
    for v in 0..ranking.game.len() {
        let at = RankedVertex {
            ranking: *ranking,
            number: v,
        };
        if sweep_vertex(&at, words) {
            raised = true;
        }
    }
    raised
}

/// Lifts each word once, the last of them first, so that ranks go quickly along chains of vertices
/// whose numbers rise.
fn sweep_down(ranking: &Ranking<'_>, words: &mut Vec<u64>)
    requires { AreWords ranking.now.game.now ranking.now.player words.old.items }
    ensures { AreLifted ranking.now.game.now ranking.now.player words.old.items words.new.items }
{
    let mut v = ranking.game.len();
    while v > 0 {
        v -= 1;
        let at = RankedVertex {
            ranking: *ranking,
            number: v,
        };
        sweep_vertex(&at, words);
    }
}

/// Lifts the words until no lift raises one: then they are the least measure.
pub(crate) fn sweep(ranking: &Ranking<'_>, words: &mut Vec<u64>)
    requires { AreWords ranking.now.game.now ranking.now.player words.old.items }
    ensures fixed { IsFixed ranking.now.game.now ranking.now.player words.new.items }
    ensures least { IsLeastMeasure ranking.now.game.now ranking.now.player words.new.items }
{
    loop {
        if !sweep_pass(ranking, words) {
            return;
        }
        sweep_down(ranking, words);
    }
}
