//! Evidence of worked games: what it rests on, nearest first.
use crate::games::Builder;
use pb_evidence::{Evidence, explain};
use pb_game::Player::{Even, Odd};
use pb_game::{Game, Player, Solution};
use pb_strategy::check;
use pb_zielonka::solve;
use std::alloc::Global;
use std::process::Abort;
use std::test::Fail;
use std::thread::Threads;

/// A vertex: the number of the instance whose it is, if it is one's, its owner, its priority and
/// its successors.
type Vertex<'a> = (Option<u64>, Player, u32, &'a [u32]);

/// Why the instance of the first vertex behind the two sinks has its truth value.
fn evidence_of<R: Abort + Threads + Sync>(
    rt: &R,
    alloc: Global,
    vertices: &[Vertex],
) -> Result<Option<Evidence>, Fail> {
    let mut builder = Builder::with_sinks(alloc)?;
    let mut marks = vec![in alloc; false; 2]?;
    let mut numbers = vec![in alloc; 0u64; 2]?;
    for (instance, owner, priority, successors) in vertices.iter().copied() {
        marks.push(instance.is_some())?;
        numbers.push(instance.unwrap_or(0))?;
        builder.push(owner, priority, successors)?;
    }
    let game = builder.game(alloc)?;
    let solution = solve(rt, alloc, &game)?;
    explained(alloc, &game, &solution, &marks, &numbers, 2)
}

fn explained(
    alloc: Global,
    game: &Game,
    solution: &Solution,
    marks: &[bool],
    numbers: &[u64],
    start: u32,
) -> Result<Option<Evidence>, Fail> {
    let count = game.len() as usize;
    if marks.len() != count || numbers.len() != count || start as usize >= count {
        return Ok(None);
    }
    if !marks[start as usize] {
        return Ok(None);
    }
    match check(game, solution) {
        Ok(checked) => Ok(Some(explain(alloc, &checked, marks, numbers, start)?)),
        Err(_) => Ok(None),
    }
}

/// What evidence has: its truth value, its instances, the number of dependencies of each, and
/// these.
fn assert_evidence<R: Abort>(
    rt: &R,
    evidence: Option<Evidence>,
    truth: bool,
    instances: &[u64],
    rows: &[&[u64]],
) {
    match evidence {
        None => assert!(rt; false, "no evidence"),
        Some(evidence) => {
            assert!(rt; evidence.truth == truth);
            assert!(rt; evidence.instances.as_slice() == instances);
            assert!(rt; evidence.instances.len() == rows.len());
            for place in 0..evidence.instances.len() {
                if let Some(row) = rows.get(place) {
                    assert!(rt; evidence.dependencies(place) == *row);
                }
            }
        }
    }
}

/// The vertices of games behind the two sinks; the truth value of the first one's instance, the
/// instances of its evidence, and what each of these rests on.
const WORKED: [(&[Vertex], bool, &[u64], &[&[u64]]); 3] = [
    // `nu X0 = X1 && X3 && X2; X1 = X2 && X0; X2 = X3; X3 = X4; X4 = false`: the shortest path to
    // the violation, X4
    (
        &[
            (Some(0), Odd, 0, &[3, 4, 5]),
            (Some(1), Odd, 0, &[2, 4]),
            (Some(2), Even, 0, &[5]),
            (Some(3), Even, 0, &[6]),
            (Some(4), Even, 0, &[0]),
        ],
        false,
        &[0, 3, 4],
        &[&[3], &[4], &[]],
    ),
    // `mu X0 = X1 && X2; X1 = true; X2 = X3; X3 = X2`: a lasso
    (
        &[
            (Some(0), Odd, 1, &[3, 4]),
            (Some(1), Even, 1, &[1]),
            (Some(2), Even, 1, &[5]),
            (Some(3), Even, 1, &[4]),
        ],
        false,
        &[0, 2, 3],
        &[&[2], &[3], &[2]],
    ),
    // `nu X7 = (X7 && X8) || X9; nu X8 = X7; mu X9 = X9`: true by the bracket
    (
        &[
            (Some(7), Even, 2, &[3, 5]),
            (None, Odd, 0, &[2, 4]),
            (Some(8), Even, 2, &[2]),
            (Some(9), Even, 1, &[5]),
        ],
        true,
        &[7, 8],
        &[&[7, 8], &[7]],
    ),
];

#[test]
fn worked_games(rt: HostRuntime) -> Result<(), Fail> {
    for (vertices, truth, instances, rows) in WORKED {
        let evidence = evidence_of(&rt, rt.alloc(), vertices)?;
        assert_evidence(&rt, evidence, truth, instances, rows);
    }
    Ok(())
}

/// `nu X0 = X1 || X2; nu X1 = X1; nu X2 = X2`: all are true, and X0 rests on one of the two.
#[test]
fn one_of_two(rt: HostRuntime) -> Result<(), Fail> {
    let vertices: [Vertex; 3] = [
        (Some(0), Even, 0, &[3, 4]),
        (Some(1), Even, 0, &[3]),
        (Some(2), Even, 0, &[4]),
    ];
    let evidence = evidence_of(&rt, rt.alloc(), &vertices)?.ok_or("no evidence")?;
    assert!(rt; evidence.truth);
    assert!(rt; evidence.instances.len() == 2);
    assert!(rt; evidence.dependencies(0).len() == 1);
    Ok(())
}
