//! Several workers check a solution, each a range of the vertices.
use crate::games::Builder;
use pb_game::Player::Even;
use pb_game::{CertificateRule, Flaw, Game, Solution};
use pb_strategy::certify;
use std::alloc::Global;
use std::test::Fail;

/// So many vertices that each of two workers has a range.
const MANY: u32 = 10_000;
/// A vertex of the first range, and one of the second.
const LOW: u32 = 3_000;

const HIGH: u32 = 7_000;

/// Vertices of Even, each with an edge to itself alone.
fn loops(alloc: Global) -> Result<Game, Fail> {
    let mut builder = Builder::new(alloc)?;
    for v in 0..MANY {
        builder.push(Even, 0, &[v])?;
    }
    builder.game(alloc)
}

/// Even wins them all, but chooses no successor at some of them.
fn solution(alloc: Global, flawed: &[u32]) -> Result<Solution, Fail> {
    let mut choice = Vec::new(alloc);
    for v in 0..MANY {
        choice.push(if flawed.contains(&v) { MANY } else { v })?;
    }
    Ok(Solution {
        winner: vec![in alloc; Even; MANY as usize]?,
        choice,
        counts: vec![in alloc; 0; MANY as usize]?,
    })
}

/// Whatever the workers do, the flaw of the least vertex is found.
#[test]
fn first_flaw_of_two_ranges(rt: HostRuntime) -> Result<(), Fail> {
    let alloc = rt.alloc();
    let game = loops(alloc)?;
    let cases: [(&[u32], Option<u32>); 4] = [
        (&[], None),
        (&[HIGH], Some(HIGH)),
        (&[LOW, HIGH], Some(LOW)),
        (&[LOW], Some(LOW)),
    ];
    for (flawed, found) in cases {
        for workers in 1..4 {
            let flaw = certify(&rt, workers, &game, solution(alloc, flawed)?)
                .err()
                .map(|(_, flaw)| flaw);
            let wanted = found.map(|vertex| Flaw {
                vertex,
                rule: CertificateRule::NoSuccessor,
            });
            assert!(rt; flaw == wanted);
        }
    }
    Ok(())
}
