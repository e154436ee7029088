//! Parity games as flat lists, certificates of their winners, and the solvers by their names.
//!
//! A parity game (Zielonka 1998) has finitely many vertices, each owned by a [`Player`], with a
//! priority and at least one successor. A token moves along the edges for ever, and a player wins a
//! play exactly where the greatest priority that occurs infinitely often has its parity. A [`Game`]
//! keeps beside the successors of each vertex its predecessors, which attractors are computed by.
#![tactic(auto)]

mod adjacency;
mod certificate;
mod limits;
mod parts;
mod predecessors;
mod solver;

ghost use Rattle.std.specs.Prelude.{◌≡◌, ℕ, ◌<◌, ◌≤◌, length, slice_index, IfOk, IsTrue};
ghost use Rattle.std.specs.Prelude.{Contains, ◌↔◌};
ghost use Rattle.pb_base.specs.OrMemory.{IfRefused};
ghost use Rattle.pb_game.specs.Adjacency.{IsFlatGame};
ghost use Rattle.pb_game.specs.declared.limits.TheConstants.{MAX_GAME_VERTICES};

use adjacency::row_of;
pub use certificate::{CertificateRule, Flaw, Solution};
pub use limits::MAX_GAME_VERTICES;
pub use parts::{GameError, GameFault, Parts};
pub use pb_fixpoint_trees::Player;
use predecessors::{Predecessors, transpose};
pub use solver::Solver;
use std::alloc::{AllocError, Global};

/// A parity game within the limits of vertices and priorities. Its vertices are the numbers below
/// [`Game::len`].
#[derive(Drop)]
pub struct Game {
    owners: Vec<Player>,
    priorities: Vec<u32>,
    greatest: u32,
    places: Vec<usize>,
    successors: Vec<u32>,
    predecessor_places: Vec<usize>,
    predecessors: Vec<u32>,
    pub ghost well_formed: { IsFlatGame owners.items priorities.items greatest
        places.items successors.items predecessor_places.items predecessors.items },
}

impl Game {
    ghost use Rattle.pb_game.specs.Games.{vertex_count, owner_of, priority_of, greatest_priority};
    ghost use Rattle.pb_game.specs.Games.{successors_of, predecessors_of, HasEdge, IsGame};
    ghost use Rattle.pb_game.specs.Parts.{AreGame, HasFewVertices, IsGameOfParts, Refuses};

    /// The game of these parts.
    ///
    /// # Errors
    ///
    /// The first fault of the parts, in the order of [`GameFault`]'s variants; or memory.
    pub fn from_parts(alloc: Global, parts: Parts) -> Result<Game, GameError>
        ensures game { IfOk result (λ game. IsGameOfParts parts game) }
        ensures well_formed { IfOk result (λ game. IsGame game) }
        ensures few { IfOk result (λ _. HasFewVertices parts) }
        ensures refused { IfRefused result (Refuses parts) }
    {
        parts.check()?;
        Ok(Game::of_parts(alloc, parts)?)
    }

    /// The game of parts that make one. They aren't tested.
    pub fn of_parts(alloc: Global, parts: Parts) -> Result<Game, AllocError>
        requires { AreGame parts }
        ensures game { IfOk result (λ game. IsGameOfParts parts game) }
        ensures well_formed { IfOk result (λ game. IsGame game) }
    {
        let greatest = parts.greatest();
        let Predecessors { places, vertices } = transpose(
            alloc,
            &parts.places,
            &parts.successors,
            parts.owners.len(),
        )?;
        Ok(Game {
            owners: parts.owners,
            priorities: parts.priorities,
            greatest,
            places: parts.places,
            successors: parts.successors,
            predecessor_places: places,
            predecessors: vertices,
        })
    }

    /// How many vertices there are.
    #[tactic(auto, unfolding(crate::specs::Games::vertex_count))]
    pub fn len(&self) -> u32
        ensures value { result ≡ vertex_count self.now }
        ensures small { result ≤ MAX_GAME_VERTICES }
    {
        self.owners.len() as u32
    }

    /// Whether the game has no vertex.
    pub fn is_empty(&self) -> bool
        ensures { IsTrue result ↔ (vertex_count self.now ≡ 0) }
    {
        self.len() == 0
    }

    /// The player that moves at `v`.
    #[tactic(auto, unfolding(crate::specs::Games::vertex_count, crate::specs::Games::owner_of))]
    pub fn owner(&self, v: u32) -> Player
        requires { v < vertex_count self.now }
        ensures { result ≡ owner_of self.now v }
    {
        self.owners[v as usize]
    }

    /// The priority of `v`.
    pub fn priority(&self, v: u32) -> u32
        requires { v < vertex_count self.now }
        ensures value { result ≡ priority_of self.now v }
        ensures within { result ≤ greatest_priority self.now }
    {
        self.priorities[v as usize]
    }

    /// The greatest priority of a vertex, 0 where there is none.
    #[tactic(auto, unfolding(crate::specs::Games::greatest_priority))]
    pub fn greatest_priority(&self) -> u32
        ensures { result ≡ greatest_priority self.now }
    {
        self.greatest
    }

    /// The successors of `v`, rising.
    pub fn successors(&self, v: u32) -> &[u32]
        requires { v < vertex_count self.now }
        ensures list { result.now ≡ successors_of self.now v }
        ensures closed { (k : ℕ) → k < length result.now
            → slice_index result.now k < vertex_count self.now }
    {
        row_of(&self.places, &self.successors, v as usize)
    }

    /// The predecessors of `v`, rising: exactly the vertices that have `v` among their successors.
    pub fn predecessors(&self, v: u32) -> &[u32]
        requires { v < vertex_count self.now }
        ensures list { result.now ≡ predecessors_of self.now v }
        ensures exact { (u : ℕ) → u < vertex_count self.now
            → Contains result.now u ↔ HasEdge self.now u v }
        ensures closed { (k : ℕ) → k < length result.now
            → slice_index result.now k < vertex_count self.now }
    {
        row_of(&self.predecessor_places, &self.predecessors, v as usize)
    }
}
