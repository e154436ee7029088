//! Lifting by many workers.
//!
//! The tables of both players are lifted in turn, each turn with twice the passes of the one
//! before, until no lift raises a word of one of them. Then its words are a least measure, and
//! where they aren't top the other player's words are top at once: no vertex has ranks below top
//! for both. So a player who loses much by ranks that rise one by one doesn't have to lift them.

ghost use Rattle.std.specs.Prelude.{◌<◌, ◌↔◌, IfOk};
ghost use Rattle.pb_fixpoint_trees.specs.Players.{opponent_of};
ghost use Rattle.pb_lifting.specs.Scales.{AreScalesOf};
ghost use Rattle.pb_lifting.specs.Measures.{SomeHasTooManyRanks};
ghost use Rattle.pb_lifting.specs.Errors.{IsTooMany};
ghost use Rattle.pb_lifting.specs.Solutions.{IsLiftedSolution};
ghost use Rattle.pb_lifting.specs.Turns.{IsOpenFor, AreInTurn, IsOpponents};
ghost use Rattle.pb_lifting.specs.Turns.{IsLeastMeasured, AreLeastMeasured};

use crate::lift_error::{LiftError, TooManyRanks};
use crate::measured::Measured;
use crate::open_table::{Job, OpenTable, work_together};
use crate::scale::Scales;
use crate::solution::solution_of;
use crate::turn::Turn;
use crate::work::Lifting;
use crate::worker_count::WorkerCount;
use pb_exploration_words::Gate;
use pb_game::{Game, Player, Solution};
use std::alloc::{AllocError, Global};
use std::marker::Brand;
use std::thread::Threads;

/// How many passes over its vertices a worker makes in the first turn.
const FIRST_PASSES: u64 = 2;

/// The solution that the least measures of both players say: Even wins where its rank isn't
/// top, the counts are the winner's rank, and the choice is the least successor towards which that
/// rank is enough.
///
/// # Errors
///
/// `TooManyRanks` exactly where for one of the players a word is too small for the ranks; or
/// memory.
pub fn lift<G: Gate + Sync, R: Threads + Sync>(
    rt: &R,
    alloc: Global,
    game: &Game,
    workers: u32,
    gate: &G,
) -> Result<Solution, LiftError>
    requires workers { 0 < workers }
    ensures too_many { IsTooMany result ↔ SomeHasTooManyRanks game.now }
    ensures solution { IfOk result (λ s. IsLiftedSolution game.now s) }
{
    let Some(scales) = Scales::of(game) else {
        return Err(TooManyRanks.into());
    };
    let lifting = Lifting {
        game,
        workers: WorkerCount { number: workers },
        gate,
    };
    let measures = lift_both(rt, alloc, &lifting, &scales)?;
    Ok(solution_of(alloc, game, &measures)?)
}

/// The least measures of both players.
#[derive(Drop)]
pub(crate) struct Measures {
    pub even: Measured,
    pub odd: Measured,
}

/// The tables of both players, of which the first is the next to be lifted.
#[derive(Drop)]
pub(crate) struct InTurn {
    /// Whose table the first one is.
    pub player: Player,
    pub first: OpenTable,
    pub second: OpenTable,
}

/// The least measures of both players, lifted by all workers.
fn lift_both<G: Gate + Sync, R: Threads + Sync>(
    rt: &R,
    alloc: Global,
    lifting: &Lifting<'_, G>,
    scales: &Scales,
) -> Result<Measures, AllocError>
    requires { AreScalesOf lifting.now.game.now scales.now }
    ensures { IfOk result (AreLeastMeasured lifting.now.game.now) }
{
    let tables = InTurn {
        player: Player::Even,
        first: OpenTable::start(alloc, lifting, Player::Even, &scales.even)?,
        second: OpenTable::start(alloc, lifting, Player::Odd, &scales.odd)?,
    };
    let InTurn {
        player,
        first,
        second,
    } = lift_one(rt, lifting, tables)?;
    let measured = first.finish(alloc, lifting.game, player)?;
    let other = player.opponent();
    let second = lift_rest(rt, lifting, second, other, &measured)?;
    let rest = second.finish(alloc, lifting.game, other)?;
    Ok(by_player(lifting.game, player, measured, rest))
}

/// The measures of a player and of its opponent, by player.
fn by_player(game: &Game, player: Player, own: Measured, opponents: Measured) -> Measures
    requires own { IsLeastMeasured game.now player own }
    requires opponents { IsLeastMeasured game.now (opponent_of player) opponents }
    ensures { AreLeastMeasured game.now result }
{
    match player {
        Player::Even => Measures {
            even: own,
            odd: opponents,
        },
        Player::Odd => Measures {
            even: opponents,
            odd: own,
        },
    }
}

/// Lifts the tables in turn, until no lift raises a word of the first.
fn lift_one<G: Gate + Sync, R: Threads + Sync>(
    rt: &R,
    lifting: &Lifting<'_, G>,
    mut tables: InTurn,
) -> Result<InTurn, AllocError>
    requires { AreInTurn lifting.now.game.now tables }
    ensures { IfOk result (AreInTurn lifting.now.game.now) }
{
    let mut passes = FIRST_PASSES;
    for _turn in 0..u64::MAX {
        let turn = Turn::of(passes);
        let InTurn {
            player,
            first: OpenTable { ranks, seats },
            second,
        } = tables;
        let seats = work_together::<Brand, G, R>(rt, lifting, &ranks, &Job::Lift(&turn), seats)?;
        tables = InTurn {
            player,
            first: OpenTable { ranks, seats },
            second,
        };
        if turn.has_settled() {
            break;
        }
        tables = swapped(lifting.game, tables);
        passes = passes.saturating_mul(2);
    }
    Ok(tables)
}

/// The same tables, the other one first.
fn swapped(game: &Game, tables: InTurn) -> InTurn
    requires { AreInTurn game.now tables }
    ensures { AreInTurn game.now result }
{
    let InTurn {
        player,
        first,
        second,
    } = tables;
    InTurn {
        player: player.opponent(),
        first: second,
        second: first,
    }
}

/// The workers concede what the opponent wins by its measure, and lift the rest of the table.
fn lift_rest<G: Gate + Sync, R: Threads + Sync>(
    rt: &R,
    lifting: &Lifting<'_, G>,
    table: OpenTable,
    player: Player,
    opponents: &Measured,
) -> Result<OpenTable, AllocError>
    requires table { IsOpenFor lifting.now.game.now player table }
    requires opponents { IsOpponents lifting.now.game.now player opponents.now }
    ensures { IfOk result (IsOpenFor lifting.now.game.now player) }
{
    let OpenTable { ranks, seats } = table;
    let concede = Job::Concede(opponents);
    let seats = work_together::<Brand, G, R>(rt, lifting, &ranks, &concede, seats)?;
    let turn = Turn::of(u64::MAX);
    let seats = work_together::<Brand, G, R>(rt, lifting, &ranks, &Job::Lift(&turn), seats)?;
    Ok(OpenTable { ranks, seats })
}
