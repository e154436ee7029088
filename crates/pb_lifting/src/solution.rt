//! The solution that the final words of both players say.

ghost use Rattle.std.specs.Prelude.{◌≡◌, ◌<◌, ◌↔◌, IsTrue, IfOk, OnOk};
ghost use Rattle.std.specs.Prelude.{Some, ◌==◌, if◌then◌else◌};
ghost use Rattle.pb_game.specs.Games.{vertex_count, priority_count};
ghost use Rattle.pb_lifting.specs.Solutions.{Meets, IsMeeting, IsLeastSuccessor, IsChoice};
ghost use Rattle.pb_lifting.specs.Solutions.{count_by_rank, lesser_of, AddsRow};
ghost use Rattle.pb_lifting.specs.Solutions.{AddsMeasured, AddsWinner, IsSolutionByMeasures};
ghost use Rattle.pb_lifting.specs.Solutions.{AreMeasured};
ghost use Rattle.pb_lifting.specs.Turns.{AreLeastMeasured};

use crate::lifting::Measures;
use crate::measured::Measured;
use crate::ranking::{RankedVertex, Ranking};
use crate::scale::width;
use pb_game::{Game, Player, Solution};
use std::alloc::{AllocError, Global};

/// A vertex, with the final words of a player.
#[derive(Clone, Copy)]
struct MeasuredVertex<'a> {
    at: RankedVertex<'a>,
    measured: &'a Measured,
    ghost of_words: { AreMeasured at.ranking.game.now at.ranking.player measured.now },
}

/// The solution that the final words of both players say.
pub(crate) fn solution_of(
    alloc: Global,
    game: &Game,
    measures: &Measures,
) -> Result<Solution, AllocError>
    requires { AreLeastMeasured game.now measures.now }
    ensures { IfOk result (λ s. IsSolutionByMeasures game.now measures.now.even.words.items
        measures.now.odd.words.items s) }
{
    let vertices = game.len() as usize;
    let mut solution = Solution {
        winner: Vec::with_capacity(alloc, vertices)?,
        choice: Vec::with_capacity(alloc, vertices)?,
        counts: Vec::with_capacity(alloc, vertices * width(game))?,
    };
    for v in 0..game.len() {
        push_at(game, measures, v, &mut solution)?;
    }
    Ok(solution)
}

/// Puts the entries of `v` behind the others.
fn push_at(
    game: &Game,
    measures: &Measures,
    v: u32,
    solution: &mut Solution,
) -> Result<(), AllocError>
    requires measures { AreLeastMeasured game.now measures.now }
    requires vertex { v < vertex_count game.now }
    ensures { OnOk result (AddsWinner game.now measures.now.even measures.now.odd v solution.old
        solution.new) }
{
    let Measures { even, odd } = measures;
    let by_even = Ranking {
        game,
        player: Player::Even,
        scale: &even.scale,
    };
    if even.words[v as usize] != by_even.top() {
        let at = RankedVertex {
            ranking: by_even,
            number: v,
        };
        return push_vertex(&MeasuredVertex { at, measured: even }, solution);
    }
    let at = RankedVertex {
        ranking: Ranking {
            game,
            player: Player::Odd,
            scale: &odd.scale,
        },
        number: v,
    };
    push_vertex(&MeasuredVertex { at, measured: odd }, solution)
}

/// Puts the entries of a vertex, which this player wins, behind the others.
fn push_vertex(vertex: &MeasuredVertex<'_>, solution: &mut Solution) -> Result<(), AllocError>
    ensures { OnOk result (AddsMeasured vertex.now.at.ranking.game.now vertex.now.at.ranking.player
        vertex.now.measured.now vertex.now.at.number solution.old solution.new) }
{
    let ranking = &vertex.at.ranking;
    let rank = vertex.measured.words[vertex.at.number as usize];
    let choice = choice_at(vertex);
    solution.winner.push(ranking.player)?;
    solution.choice.push(choice)?;
    push_counts(ranking, rank, &mut solution.counts)
}

/// Puts a vertex's counts behind the others.
fn push_counts(ranking: &Ranking<'_>, rank: u64, counts: &mut Vec<u64>) -> Result<(), AllocError>
    ensures { OnOk result (AddsRow ranking.now.game.now ranking.now.player rank counts.old.items
        counts.new.items) }
{
    for priority in 0..=ranking.game.greatest_priority() {
        counts.push(count_at(ranking, rank, priority))?;
    }
    Ok(())
}

/// The count of a rank at a priority, and 0 where the rank is top.
fn count_at(ranking: &Ranking<'_>, rank: u64, priority: u32) -> u64
    requires { priority < priority_count ranking.now.game.now }
    ensures { result ≡ count_by_rank ranking.now.game.now ranking.now.player rank priority }
{
    if rank == ranking.top() {
        return 0;
    }
    ranking.count(rank, priority)
}

/// The choice at a vertex, which this player wins.
fn choice_at(vertex: &MeasuredVertex<'_>) -> u32
    ensures { IsChoice vertex.now.at.ranking.game.now vertex.now.at.ranking.player
        vertex.now.measured.now.words.items vertex.now.at.number result }
{
    let Ranking { game, player, .. } = vertex.at.ranking;
    if game.owner(vertex.at.number) != player {
        return least_successor(&vertex.at);
    }
    match least_meeting(vertex) {
        Some(u) => u,
        None => least_successor(&vertex.at),
    }
}

fn least_successor(at: &RankedVertex<'_>) -> u32
    ensures { IsLeastSuccessor at.now.ranking.game.now at.now.number result }
{
    let successors = at.ranking.game.successors(at.number);
    let mut least = successors[0];
    for target in successors {
        if *target < least {
            least = *target;
        }
    }
    least
}

/// The least successor to which an edge from the vertex meets the edge condition.
fn least_meeting(vertex: &MeasuredVertex<'_>) -> Option<u32>
    ensures { IsMeeting vertex.now.at.ranking.game.now vertex.now.at.ranking.player
        vertex.now.measured.now.words.items vertex.now.at.number result }
{
    let mut least: Option<u32> = None;
    for target in vertex.at.ranking.game.successors(vertex.at.number) {
        if meets(vertex, *target) {
            least = lesser(least, *target);
        }
    }
    least
}

/// The lesser of a vertex and another, where there is one.
fn lesser(least: Option<u32>, u: u32) -> Option<u32>
    ensures { result ≡ Some (lesser_of least u) }
{
    match least {
        Some(w) => Some(w.min(u)),
        None => Some(u),
    }
}

/// Whether an edge from the vertex to `u` meets the edge condition.
fn meets(vertex: &MeasuredVertex<'_>, u: u32) -> bool
    requires { u < vertex_count vertex.now.at.ranking.game.now }
    ensures { IsTrue result ↔ Meets vertex.now.at.ranking.game.now vertex.now.at.ranking.player
        vertex.now.measured.now.words.items vertex.now.at.number u }
{
    let top = vertex.at.ranking.top();
    let rank = vertex.measured.words[u as usize];
    if rank >= top {
        return false;
    }
    let own = counted_rank(vertex.measured.words[vertex.at.number as usize], top);
    vertex.at.asked(rank) <= own
}

/// A rank with the counts of this one: those of top are all 0.
fn counted_rank(rank: u64, top: u64) -> u64
    ensures { result ≡ (if rank == top then 0 else rank) }
{
    if rank == top { 0 } else { rank }
}
