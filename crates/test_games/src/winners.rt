//! Who wins: worked games, games of a shape that a round or a recursion could be slow on, and
//! generated games by either solver.
use crate::games::{Builder, Vertex, assert_winners, count_won, game_of};
use crate::generated::generated;
use crate::measures::won_by_even;
use pb_exploration::NoGate;
use pb_game::Player;
use pb_game::Player::{Even, Odd};
use pb_lifting::lift;
use pb_strategy::check;
use pb_zielonka::solve;
use std::alloc::Global;
use std::test::Fail;

/// A game: what it is that of, its vertices behind the two sinks, and who wins each vertex.
const WORKED: [(&str, &[Vertex], &[Player]); 7] = [
    (
        "mu X = Y; nu Y = X",
        &[(Even, 1, &[3]), (Even, 0, &[2])],
        &[Odd, Even, Odd, Odd],
    ),
    (
        "nu Y = X; mu X = Y",
        &[(Even, 2, &[3]), (Even, 1, &[2])],
        &[Odd, Even, Even, Even],
    ),
    (
        "nu X(d) = forall e . val(e != d) => X(e), over three values",
        &[(Odd, 0, &[3, 4]), (Odd, 0, &[2, 4]), (Odd, 0, &[2, 3])],
        &[Odd, Even, Even, Even, Even],
    ),
    (
        "a nu and a mu variable over two values, one calling the other's next value",
        &[
            (Even, 2, &[4]),
            (Even, 2, &[5]),
            (Even, 1, &[3]),
            (Even, 1, &[4]),
        ],
        &[Odd, Even, Even, Even, Even, Even],
    ),
    (
        "nu X = (X && Y) || Y; mu Y = Y",
        &[(Even, 2, &[3, 4]), (Odd, 0, &[2, 4]), (Even, 1, &[4])],
        &[Odd, Even, Odd, Odd, Odd],
    ),
    (
        "an operand that is true by itself beside a call of the instance itself",
        &[(Even, 1, &[2, 3]), (Even, 0, &[1])],
        &[Odd, Even, Even, Even],
    ),
    // The player of the greatest priority loses it to a region below.
    (
        "nu A = F && E; mu F = F; mu E = A || E",
        &[(Odd, 2, &[3, 4]), (Odd, 1, &[3]), (Even, 1, &[2, 4])],
        &[Odd, Even, Odd, Odd, Odd],
    ),
];

#[test]
fn worked_games(rt: HostRuntime) -> Result<(), Fail> {
    let alloc = rt.alloc();
    for (name, vertices, winners) in WORKED {
        let game = game_of(alloc, vertices)?;
        assert_winners(&rt, alloc, name, &game, winners)?;
    }
    Ok(())
}

/// A round of the attractor takes in one vertex of a chain.
#[test]
fn chains(rt: HostRuntime) -> Result<(), Fail> {
    let alloc = rt.alloc();
    for length in [10_000u32, 1 << 18] {
        let mut builder = Builder::with_sinks(alloc)?;
        for v in 2..length.wrapping_add(2) {
            builder.push(Even, 1, &[v - 1])?;
        }
        let game = builder.game(alloc)?;
        let solution = solve(&rt, alloc, &game)?;
        let won = check(&game, &solution).map_or(0, |checked| count_won(&checked));
        assert!(rt; won == length.wrapping_add(1));
    }
    Ok(())
}

/// 2,000 cycles of three vertices, whose greatest priority is even in every second one. Frontiers
/// are large.
#[test]
fn many_components(rt: HostRuntime) -> Result<(), Fail> {
    let alloc = rt.alloc();
    let mut builder = Builder::new(alloc)?;
    for component in 0..2_000u32 {
        let first = component * 3;
        builder.push(Even, 1, &[first + 1])?;
        builder.push(Odd, component % 2 + 2, &[first + 2])?;
        builder.push(Even, 0, &[first])?;
    }
    let game = builder.game(alloc)?;
    let solution = solve(&rt, alloc, &game)?;
    let won = check(&game, &solution).map_or(0, |checked| count_won(&checked));
    assert!(rt; won == 3_000);
    Ok(())
}

/// 600 vertices of Even, each with 2,000 successors that Odd wins; every third has a way out behind
/// them. One round decides them all.
#[test]
fn wide_opponents(rt: HostRuntime) -> Result<(), Fail> {
    let alloc = rt.alloc();
    let mut builder = Builder::new(alloc)?;
    let mut winners = Vec::new(alloc);
    let mut closed = Vec::new(alloc);
    let mut open = Vec::new(alloc);
    for v in 0..2_000u32 {
        builder.push(Even, 1, &[v])?;
        winners.push(Odd)?;
        closed.push(v)?;
        open.push(v)?;
    }
    builder.push(Even, 0, &[2_000])?;
    winners.push(Even)?;
    open.push(2_000)?;
    for decider in 0..600u32 {
        let wins = decider % 3 == 0;
        builder.push(Even, 0, if wins { &open } else { &closed })?;
        winners.push(if wins { Even } else { Odd })?;
    }
    let game = builder.game(alloc)?;
    assert_winners(&rt, alloc, "wide opponents", &game, &winners)
}

/// Two thousand generated games have the winners that the plain solver finds, by either solver, and
/// what either gives is a certificate.
#[test]
fn generated_games(rt: HostRuntime) -> Result<(), Fail> {
    let alloc = rt.alloc();
    for seed in 0..2_000u64 {
        let game = generated(alloc, seed)?;
        let expected = won_by_even(alloc, &game)?;
        let solved = solve(&rt, alloc, &game)?;
        let Ok(lifted) = lift(&rt, alloc, &game, 2, &NoGate) else {
            panic!(rt; "seed {seed}");
        };
        for solution in [&solved, &lifted] {
            assert!(rt; check(&game, solution).is_ok(), "seed {seed}");
            assert!(rt; are_won_by_even(&solution.winner, &expected), "seed {seed}");
        }
    }
    Ok(())
}

/// Whether Even wins just the marked vertices.
fn are_won_by_even(winners: &[Player], expected: &[bool]) -> bool {
    winners.len() == expected.len()
        && winners
            .iter()
            .zip(expected)
            .all(|(winner, is_won)| (*winner == Even) == *is_won)
}
