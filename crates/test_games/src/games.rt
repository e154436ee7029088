//! How the tests make games, and who wins them.
use pb_game::Player::{Even, Odd};
use pb_game::{Game, Parts, Player};
use pb_strategy::{Checked, check};
use pb_zielonka::solve;
use std::alloc::Global;
use std::process::Abort;
use std::test::Fail;
use std::thread::Threads;

/// A vertex: its owner, its priority and its successors.
pub(crate) type Vertex<'a> = (Player, u32, &'a [u32]);

/// The parts of a game, vertex by vertex.
#[derive(Drop)]
pub(crate) struct Builder {
    pub(crate) parts: Parts,
}

impl Builder {
    pub(crate) fn new(alloc: Global) -> Result<Builder, Fail> {
        let places = vec![in alloc; 0usize]?;
        Ok(Builder {
            parts: Parts {
                owners: Vec::new(alloc),
                priorities: Vec::new(alloc),
                places,
                successors: Vec::new(alloc),
            },
        })
    }

    /// The two sinks that each game of trees begins with.
    pub(crate) fn with_sinks(alloc: Global) -> Result<Builder, Fail> {
        let mut builder = Builder::new(alloc)?;
        builder.push(Even, 1, &[0])?;
        builder.push(Even, 0, &[1])?;
        Ok(builder)
    }

    pub(crate) fn push(
        &mut self,
        owner: Player,
        priority: u32,
        successors: &[u32],
    ) -> Result<(), Fail> {
        self.parts.owners.push(owner)?;
        self.parts.priorities.push(priority)?;
        self.parts.successors.extend_from_slice(successors)?;
        let place = self.parts.successors.len();
        self.parts.places.push(place)?;
        Ok(())
    }

    pub(crate) fn game(self, alloc: Global) -> Result<Game, Fail> {
        let Builder { parts } = self;
        Ok(Game::from_parts(alloc, parts)?)
    }
}

/// The game of these vertices behind the two sinks.
pub(crate) fn game_of(alloc: Global, vertices: &[Vertex]) -> Result<Game, Fail> {
    let mut builder = Builder::with_sinks(alloc)?;
    for (owner, priority, successors) in vertices.iter().copied() {
        builder.push(owner, priority, successors)?;
    }
    builder.game(alloc)
}

/// So many vertices of Even, each with a priority of its own and an edge to itself.
pub(crate) fn loops(alloc: Global, priorities: u32) -> Result<Parts, Fail> {
    let mut builder = Builder::new(alloc)?;
    for v in 0..priorities {
        builder.push(Even, v, &[v])?;
    }
    let Builder { parts } = builder;
    Ok(parts)
}

/// How many vertices Even wins.
pub(crate) fn count_won(checked: &Checked) -> u32 {
    let mut won = 0u32;
    for v in 0..checked.game().len() {
        won = won.wrapping_add(u32::from(checked.truth(v)));
    }
    won
}

/// Solves the game, checks the certificate, and compares who wins each vertex.
pub(crate) fn assert_winners<R: Abort + Threads + Sync>(
    rt: &R,
    alloc: Global,
    name: &str,
    game: &Game,
    winners: &[Player],
) -> Result<(), Fail> {
    let solution = solve(rt, alloc, game)?;
    assert!(rt; game.len() as usize == winners.len());
    match check(game, &solution) {
        Ok(checked) => {
            for v in 0..game.len() {
                let winner = winners.get(v as usize).copied();
                assert!(rt;
                    winner == Some(if checked.truth(v) { Even } else { Odd }),
                    "{name}: vertex {v}"
                );
            }
        }
        Err(flaw) => assert!(rt; false, "{name}: {flaw}"),
    }
    Ok(())
}
