//! What lifting gives. That its winners are Zielonka's is tested over generated games.
ghost use Rattle.std.specs.Prelude.{◌<◌};

use crate::games::{Builder, game_of};
use crate::lifting::attempts::Attempts;
use crate::lifting::overlap::Overlap;
use pb_command_solver::{Context, solve};
use pb_exploration::{Gate, NoGate};
use pb_game::Player::{Even, Odd};
use pb_game::{Game, Player, Solver};
use pb_lifting::{LiftError, Ranks, TooManyRanks, lift};
use std::alloc::Global;
use std::process::Abort;
use std::test::Fail;
use std::thread::Threads;

/// `mu X = Y; nu Y = X`, behind the two sinks.
fn two_equations(alloc: Global) -> Result<Game, Fail> {
    game_of(alloc, &[(Even, 1, &[3]), (Even, 0, &[2])])
}

/// The game of 64 equations over four values, `nu` and `mu` in turn, each of which is `forall m` of
/// the next one and the last of the first. Either player has more than `2 ^ 64` ranks.
fn round_of_64_equations(alloc: Global) -> Result<Game, Fail> {
    let mut builder = Builder::with_sinks(alloc)?;
    for v in 0..256u32 {
        let next = (v / 4 + 1) % 64 * 4 + 2;
        let priority = 64u32.saturating_sub(v / 4);
        builder.push(Odd, priority, &[next, next + 1, next + 2, next + 3])?;
    }
    builder.game(alloc)
}

/// A cycle of 1,000 vertices that Even wins: Odd has 1,000 ranks below top.
fn long_cycle(alloc: Global) -> Result<Game, Fail> {
    let mut builder = Builder::new(alloc)?;
    for v in 0..1000u32 {
        builder.push(Even, 0, &[(v + 1) % 1000])?;
    }
    builder.game(alloc)
}

/// Ten chains of 24 vertices into the true sink, with a priority for each step: either player has
/// more than `11 ^ 12` ranks, and each sink is lost by one of them.
fn ten_chains(alloc: Global) -> Result<Game, Fail> {
    let mut builder = Builder::with_sinks(alloc)?;
    for v in 0..240u32 {
        let next = if v < 230 { v + 12 } else { 1 };
        builder.push(Even, 25u32.saturating_sub(v / 10), &[next])?;
    }
    builder.game(alloc)
}

/// The words of a player once a seat has lifted each vertex so many times.
fn words_after<R: Abort>(
    rt: &R,
    alloc: Global,
    game: &Game,
    player: Player,
    passes: u32,
) -> Result<Vec<u64>, Fail> {
    let Ok((ranks, mut seats)) = Ranks::start(alloc, game, player, 1) else {
        panic!(rt; "no table");
    };
    let Some(mut seat) = seats.pop() else {
        panic!(rt; "no seat");
    };
    for _pass in 0..passes {
        for v in 0..game.len() {
            ranks.lift_vertex(game, &mut seat, v);
        }
    }
    seats.push(seat)?;
    Ok(ranks.close(alloc, seats)?)
}

/// Lifts the game of two equations and compares what is worked out for it.
fn assert_two_equations<G: Gate + Sync, R: Abort + Threads + Sync>(
    rt: &R,
    alloc: Global,
    workers: u32,
    gate: &G,
) -> Result<(), Fail>
    requires { 0 < workers }
{
    let game = two_equations(alloc)?;
    let Ok(solution) = lift(rt, alloc, &game, workers, gate) else {
        panic!(rt; "no solution");
    };
    assert!(rt; solution.winner.as_slice() == [Odd, Even, Odd, Odd].as_slice());
    assert!(rt; solution.choice.as_slice() == [0u32, 1, 3, 2].as_slice());
    assert!(rt; solution.counts.as_slice() == [0u64, 0, 0, 0, 0, 0, 1, 0].as_slice());
    Ok(())
}

// before any lift, and at the end
#[test]
fn words_of_two_equations(rt: HostRuntime) -> Result<(), Fail> {
    let alloc = rt.alloc();
    let game = two_equations(alloc)?;
    for (passes, even, odd) in [
        (0u32, [0u64, 0, 0, 0], [0u64, 0, 0, 0]),
        (12, [3, 0, 3, 3], [0, 3, 0, 1]),
    ] {
        for (player, wanted) in [(Even, even), (Odd, odd)] {
            let words = words_after(&rt, alloc, &game, player, passes)?;
            assert!(rt; words.as_slice() == wanted.as_slice());
        }
    }
    Ok(())
}

#[test]
fn solution_of_two_equations(rt: HostRuntime) -> Result<(), Fail> {
    for workers in 1..5u32 {
        assert_two_equations(&rt, rt.alloc(), workers, &NoGate)?;
    }
    Ok(())
}

// the worker that comes first waits until the other has lifted a vertex
#[test]
fn workers_overlap(rt: HostRuntime) -> Result<(), Fail> {
    let gate = Overlap::new();
    assert_two_equations(&rt, rt.alloc(), 2, &gate)?;
    assert!(rt; gate.was_ended());
    Ok(())
}

#[test]
fn empty_game(rt: HostRuntime) -> Result<(), Fail> {
    let alloc = rt.alloc();
    let game = Builder::new(alloc)?.game(alloc)?;
    let Ok(solution) = lift(&rt, alloc, &game, 2, &NoGate) else {
        panic!(rt; "no solution");
    };
    assert!(rt; solution.winner.is_empty());
    Ok(())
}

#[test]
fn numbers_of_errors(rt: HostRuntime) -> Result<(), Fail> {
    let alloc = rt.alloc();
    for (error, number) in [
        (LiftError::Refused(TooManyRanks), "K06"),
        (LiftError::Memory, "M01"),
    ] {
        assert!(rt; format!(in alloc; "{error}")?.as_str() == number);
    }
    Ok(())
}

// the greatest priority of each cycle is even
#[test]
fn too_many_ranks(rt: HostRuntime) -> Result<(), Fail> {
    let alloc = rt.alloc();
    let game = round_of_64_equations(alloc)?;
    let refused = lift(&rt, alloc, &game, 2, &NoGate);
    assert!(rt; matches!(refused, Err(LiftError::Refused(TooManyRanks))));
    let context = Context {
        rt: &rt,
        alloc,
        gate: &NoGate,
    };
    let certified = solve(&context, &game, Solver::Lift, 2)?;
    let winners = &certified.solution().winner;
    assert!(rt; winners.len() == 258);
    assert!(rt; winners.iter().skip(1).all(|&winner| winner == Even));
    Ok(())
}

// Odd's ranks on the cycle and both players' at the sinks aren't gone through one by one
#[test]
fn what_is_lost_is_top_at_once(rt: HostRuntime) -> Result<(), Fail> {
    let alloc = rt.alloc();
    for game in [long_cycle(alloc)?, ten_chains(alloc)?] {
        let gate = Attempts::none();
        let Ok(solution) = lift(&rt, alloc, &game, 1, &gate) else {
            panic!(rt; "no solution");
        };
        assert!(rt; solution.winner.iter().skip(1).all(|&winner| winner == Even));
        assert!(rt; gate.made() < 10_000);
    }
    Ok(())
}

#[test]
fn words_for_solvers(rt: HostRuntime) -> Result<(), Fail> {
    let alloc = rt.alloc();
    for (word, solver) in [("zielonka", Solver::Zielonka), ("lift", Solver::Lift)] {
        assert!(rt; Solver::named(word) == Some(solver));
        assert!(rt; format!(in alloc; "{solver}")?.as_str() == word);
    }
    assert!(rt; Solver::named("Lift") == None);
    assert!(rt; Solver::default() == Solver::Zielonka);
    Ok(())
}
