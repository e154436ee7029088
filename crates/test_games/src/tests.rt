//! What is no certificate, and what are no parts of a game.
use crate::games::{Builder, game_of};
use pb_game::Player::{Even, Odd};
use pb_game::{CertificateRule, Flaw, Game, GameError, GameFault, Solution};
use pb_strategy::check;
use std::alloc::Global;
use std::process::Abort;
use std::test::Fail;

/// `mu X = X` with X given to Even, and no count falls.
#[test]
fn equal_counts_are_a_flaw(rt: HostRuntime) -> Result<(), Fail> {
    let alloc = rt.alloc();
    let game = game_of(alloc, &[(Even, 1, &[2])])?;
    let solution = Solution {
        winner: vec![in alloc; Odd, Even, Even]?,
        choice: vec![in alloc; 0, 1, 2]?,
        counts: vec![in alloc; 0; 6]?,
    };
    let flaw = Flaw {
        vertex: 2,
        rule: CertificateRule::NoDecrease,
    };
    assert!(rt; check(&game, &solution).err() == Some(flaw));
    let text = format!(in alloc; "{flaw}")?;
    assert!(rt; text.as_str() == "K04 vertex 2");
    Ok(())
}

/// What the checker says where Even is given a third vertex, its own and of priority 0, with
/// this choice; `count` is that of priority 1 at the sink that Even wins.
fn flaw_at_third(
    alloc: Global,
    successors: &[u32],
    choice: u32,
    count: u64,
) -> Result<Option<Flaw>, Fail> {
    let game = game_of(alloc, &[(Even, 0, successors)])?;
    let solution = Solution {
        winner: vec![in alloc; Odd, Even, Even]?,
        choice: vec![in alloc; 0, 1, choice]?,
        counts: vec![in alloc; 0, 0, 0, count, 0, 0]?,
    };
    Ok(check(&game, &solution).err())
}

#[test]
fn edges_are_flaws(rt: HostRuntime) -> Result<(), Fail> {
    let alloc = rt.alloc();
    let flaw = |rule| Some(Flaw { vertex: 2, rule });
    // K01: the choice is no successor
    assert!(rt; flaw_at_third(alloc, &[1], 0, 0)? == flaw(CertificateRule::NoSuccessor));
    // K02: the chosen edge leads to what Odd wins
    assert!(rt; flaw_at_third(alloc, &[0, 1], 0, 0)? == flaw(CertificateRule::LeavesRegion));
    // K03: along the chosen edge the count rises
    assert!(rt; flaw_at_third(alloc, &[1], 1, 1)? == flaw(CertificateRule::Increases));
    // and this is a certificate
    assert!(rt; flaw_at_third(alloc, &[1], 1, 0)?.is_none());
    Ok(())
}

/// K05.
#[test]
fn short_list_is_a_flaw(rt: HostRuntime) -> Result<(), Fail> {
    let alloc = rt.alloc();
    let game = game_of(alloc, &[])?;
    let solution = Solution {
        winner: vec![in alloc; Odd, Even]?,
        choice: vec![in alloc; 0, 1]?,
        counts: vec![in alloc; 0; 3]?,
    };
    let flaw = Flaw {
        vertex: 0,
        rule: CertificateRule::Length,
    };
    assert!(rt; check(&game, &solution).err() == Some(flaw));
    Ok(())
}

/// Asserts that no game is made of the parts, for this fault.
fn assert_fault<R: Abort>(rt: &R, alloc: Global, builder: Builder, fault: GameFault) {
    let Builder { parts } = builder;
    match Game::from_parts(alloc, parts) {
        Err(GameError::Refused(found)) => assert!(rt; found == fault),
        _ => assert!(rt; false, "no fault"),
    }
}

/// Each fault of the parts, by the first that fails.
#[test]
fn faulty_parts(rt: HostRuntime) -> Result<(), Fail> {
    let alloc = rt.alloc();
    // G03
    let mut priority = Builder::with_sinks(alloc)?;
    priority.parts.priorities.push(0)?;
    assert_fault(&rt, alloc, priority, GameFault::Priorities);
    // G04
    let mut lonely = Builder::with_sinks(alloc)?;
    lonely.push(Even, 0, &[])?;
    assert_fault(&rt, alloc, lonely, GameFault::Places);
    // G05
    let mut twice = Builder::with_sinks(alloc)?;
    twice.push(Even, 0, &[1, 1])?;
    assert_fault(&rt, alloc, twice, GameFault::Successors);
    Ok(())
}

#[test]
fn predecessors_rise(rt: HostRuntime) -> Result<(), Fail> {
    let game = game_of(rt.alloc(), &[(Odd, 0, &[1, 3]), (Even, 0, &[1, 2, 3])])?;
    assert!(rt; game.len() == 4);
    assert!(rt; !game.is_empty());
    assert!(rt; game.greatest_priority() == 1);
    assert!(rt; game.len() > 3);
    assert!(rt; game.predecessors(1) == [1, 2, 3].as_slice());
    assert!(rt; game.predecessors(2) == [3].as_slice());
    Ok(())
}
