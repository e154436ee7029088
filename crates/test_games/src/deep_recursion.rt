//! The depth of the solver's recursion, which is that of a game's priorities: the most that a game
//! can have are solved within the stack of a thread.
use crate::games::{count_won, loops};
use pb_game::{Game, GameError, GameFault};
use pb_strategy::check;
use pb_zielonka::solve;
use std::alloc::Global;
use std::process::Abort;
use std::test::Fail;
use std::thread;
use std::thread::Threads;

/// How many vertices of the game Even wins, where there was memory to solve it.
fn solved_and_won<R: Threads + Sync>(rt: &R, alloc: Global, game: &Game) -> Option<u32> {
    let solution = solve(rt, alloc, game).ok()?;
    let checked = check(game, &solution).ok()?;
    Some(count_won(&checked))
}

/// Even wins each vertex of even priority.
#[test]
fn all_priorities_within_two_megabytes(rt: HostRuntime) -> Result<(), Fail> {
    let alloc = rt.alloc();
    let game = Game::from_parts(alloc, loops(alloc, 256)?)?;
    let solver = thread::Builder::new()
        .stack_size(2 << 20)
        .spawn(&rt, move || solved_and_won(&rt, alloc, &game))?;
    assert!(rt; solver.join(&rt) == Some(128));
    Ok(())
}

/// G06.
#[test]
fn one_priority_more_is_refused(rt: HostRuntime) -> Result<(), Fail> {
    let alloc = rt.alloc();
    let refused = Game::from_parts(alloc, loops(alloc, 257)?);
    assert!(rt;
        matches!(
            refused,
            Err(GameError::Refused(GameFault::TooManyPriorities))
        )
    );
    Ok(())
}
