//! The place values of a player's ranks, and what an edge asks for.

ghost use Rattle.std.specs.Prelude.{◌≡◌, ℕ, ◌+◌, ◌*◌, ◌<◌, ◌≤◌, ◌==◌, if◌then◌else◌, ◌%◌};
ghost use Rattle.std.specs.Prelude.{slice_index, MatchOption};
ghost use Rattle.pb_game.specs.Games.{priority_count};
ghost use Rattle.pb_fixpoint_trees.specs.Players.{parity_of};
ghost use Rattle.pb_lifting.specs.Radix.{step_up, better};
ghost use Rattle.pb_lifting.specs.Measures.{HasTooManyRanks, SomeHasTooManyRanks};
ghost use Rattle.pb_lifting.specs.Scales.{AreCountsOf, IsScaleOf, AreScalesOf};
ghost use Rattle.pb_base.specs.declared.limits.TheConstants.{MAX_PRIORITIES};

use crate::counts::PriorityCounts;
use pb_base::MAX_PRIORITIES;
use pb_game::{Game, Player};

/// For each priority what one more of its count adds to a rank, and behind the greatest one the
/// top rank.
#[derive(Clone, Copy)]
pub(crate) struct Scale {
    pub places: [u64; MAX_PRIORITIES + 1],
}

/// The scales of both players.
#[derive(Drop)]
pub(crate) struct Scales {
    pub even: Scale,
    pub odd: Scale,
}

/// What an edge asks for, where the top rank is a multiple of the place value.
pub(crate) fn step(place: u64, top: u64, more: u64, rank: u64) -> u64
    requires place { 0 < place }
    requires more { more ≤ 1 }
    requires multiple { (m : ℕ) × (top ≡ m * place) }
    ensures { result ≡ step_up place top more rank }
{
    if rank >= top {
        return top;
    }
    (rank / place + more) * place
}

/// The rank of a vertex with no successor seen: each one makes it better for the vertex's owner.
pub(crate) fn rank_before_successors(own: bool, top: u64) -> u64
    ensures { result ≡ (if own then top else 0) }
{
    if own { top } else { 0 }
}

/// The better of two ranks for a vertex's owner.
pub(crate) fn better_rank(own: bool, a: u64, b: u64) -> u64
    ensures { result ≡ better own a b }
{
    if own { a.min(b) } else { a.max(b) }
}

/// How many priorities there are, from 0 up to the greatest.
pub(crate) fn width(game: &Game) -> usize
    ensures value { result ≡ priority_count game.now }
    ensures small { result ≤ MAX_PRIORITIES }
{
    game.greatest_priority() as usize + 1
}

/// How many counts there are at a priority that so many vertices have.
fn base(player: Player, priority: u32, vertices: u32) -> u64
    ensures { result ≡ (if priority % 2 == parity_of player then 1 else vertices + 1) }
{
    if priority % 2 == player.parity() {
        1
    } else {
        u64::from(vertices) + 1
    }
}

impl Scale {
    /// The scale of a player, or nothing where the ranks are more than a word has (K06).
    pub(crate) fn of(game: &Game, player: Player, counts: &PriorityCounts) -> Option<Scale>
        requires counts { AreCountsOf game.now counts.now }
        ensures { MatchOption result (HasTooManyRanks game.now player) (IsScaleOf game.now player) }
    {
        let mut places = [1u64; MAX_PRIORITIES + 1];
        let mut top: u64 = 1; // that of the priorities so far
        for priority in 0..width(game) {
            let base = base(player, priority as u32, counts.vertices[priority]);
            let Some(product) = top.checked_mul(base) else {
                return None;
            };
            top = product;
            places[priority + 1] = top;
        }
        if top == u64::MAX {
            return None;
        }
        Some(Scale { places })
    }

    /// The place value of a priority.
    pub(crate) fn at(&self, priority: usize) -> u64
        requires { priority ≤ MAX_PRIORITIES }
        ensures { result ≡ slice_index self.now.places priority }
    {
        self.places[priority]
    }
}

impl Scales {
    /// The scales of a game, or nothing where a player's ranks are more than a word has.
    pub(crate) fn of(game: &Game) -> Option<Scales>
        ensures { MatchOption result (SomeHasTooManyRanks game.now) (AreScalesOf game.now) }
    {
        let counts = PriorityCounts::of(game);
        let Some(even) = Scale::of(game, Player::Even, &counts) else {
            return None;
        };
        let Some(odd) = Scale::of(game, Player::Odd, &counts) else {
            return None;
        };
        Some(Scales { even, odd })
    }
}
