//! The parts that a game is made of, and the test that they make one.

ghost use Rattle.std.specs.Prelude.{◌≡◌, ℕ, ◌<◌, ◌↔◌, length, IsTrue, IfErr, IfOk};
ghost use Rattle.std.specs.List.Sorted.{IsStrictlyIncreasing};
ghost use Rattle.pb_game.specs.Adjacency.{greatest_of};

use crate::Player;
use crate::adjacency::row_of;
use pb_base::{Fault, MAX_PRIORITIES, MAX_VERTICES, OrMemory};
use std::fmt;

/// The parts of a game, by vertex: owners, priorities, and where a vertex's successors
/// begin in the list of all successors. Behind the last place stands the number of all successors.
#[derive(Drop)]
pub struct Parts {
    pub owners: Vec<Player>,
    pub priorities: Vec<u32>,
    pub places: Vec<usize>,
    pub successors: Vec<u32>,
}

/// What is wrong with parts that make no game. Each fault shows as its number.
#[derive(Clone, Copy, Debug, PartialEq, Eq)]
pub enum GameFault {
    /// G01: more than 2^24 vertices.
    TooManyVertices,
    /// G03: the vertices and the priorities differ in number.
    Priorities,
    /// G04: the places are not one more than the vertices, don't begin at 0, don't rise from vertex
    /// to vertex (each vertex has a successor), or don't end behind the last successor.
    Places,
    /// G05: a successor is no vertex, or the successors of a vertex don't rise.
    Successors,
    /// G06: a priority is 256 or more.
    TooManyPriorities,
}

impl Fault for GameFault {}

/// Why there is no game: its parts make none, or memory was refused.
pub type GameError = OrMemory<GameFault>;

impl GameFault {
    ghost use Rattle.pb_game.specs.FaultNumber.{fault_number};

    /// The fault's number, as `G01`.
    pub fn number(self) -> &'static str
        ensures { result.now ≡ fault_number self }
    {
        match self {
            GameFault::TooManyVertices => "G01",
            GameFault::Priorities => "G03",
            GameFault::Places => "G04",
            GameFault::Successors => "G05",
            GameFault::TooManyPriorities => "G06",
        }
    }
}

impl fmt::Display for GameFault {
    ghost use Rattle.std.specs.Prelude.{Some};
    ghost use Rattle.pb_game.specs.FaultNumber.{fault_number};

    ghost output = { λ fault. Some (fault_number fault) };

    fn fmt<W: fmt::Write>(&self, f: &mut fmt::Formatter<W>) -> fmt::Result {
        f.write_str(self.number())
    }
}

impl Parts {
    ghost use Rattle.pb_game.specs.Parts.{AreGame, HasFewVertices, HasPlaces, HasSuccessors};
    ghost use Rattle.pb_game.specs.Parts.{Refuses};

    /// Tests that the parts make a game.
    ///
    /// # Errors
    ///
    /// The first fault, in the order of [`GameFault`]'s variants.
    pub(crate) fn check(&self) -> Result<(), GameFault>
        ensures ok { IfOk result (λ _. AreGame self.now) }
        ensures few { IfOk result (λ _. HasFewVertices self.now) }
        ensures refused { IfErr result (Refuses self.now) }
    {
        if self.owners.len() > MAX_VERTICES {
            return Err(GameFault::TooManyVertices);
        }
        if self.priorities.len() != self.owners.len() {
            return Err(GameFault::Priorities);
        }
        if !self.has_places() {
            return Err(GameFault::Places);
        }
        if !self.has_successors() {
            return Err(GameFault::Successors);
        }
        if !self
            .priorities
            .iter()
            .all(|&priority| (priority as usize) < MAX_PRIORITIES)
        {
            return Err(GameFault::TooManyPriorities);
        }
        Ok(())
    }

    /// Whether the places divide the successors.
    fn has_places(&self) -> bool
        ensures { IsTrue result ↔ HasPlaces self.now }
    {
        let count = self.owners.len();
        if self.places.len() != count + 1 {
            return false;
        }
        self.places[0] == 0
            && self.places[count] == self.successors.len()
            && places_rise(&self.places)
    }

    /// Whether the successors of each vertex are rising vertices.
    fn has_successors(&self) -> bool
        requires { HasPlaces self.now }
        ensures { IsTrue result ↔ HasSuccessors self.now }
    {
        let count = self.owners.len();
        if !self.successors.iter().all(|&u| (u as usize) < count) {
            return false;
        }
        for v in 0..count {
            if !rises(row_of(&self.places, &self.successors, v)) {
                return false;
            }
        }
        true
    }

    /// The greatest priority, 0 where there is none.
    pub(crate) fn greatest(&self) -> u32
        ensures { result ≡ greatest_of self.now.priorities.items }
    {
        let mut greatest = 0;
        for &priority in &self.priorities {
            greatest = priority.max(greatest);
        }
        greatest
    }
}

/// Whether each number is below the next.
fn rises(row: &[u32]) -> bool
    ensures { IsTrue result ↔ IsStrictlyIncreasing row.now }
{
    for k in 1..row.len() {
        if row[k] <= row[k - 1] {
            return false;
        }
    }
    true
}

/// Whether each place is below the next.
fn places_rise(places: &[usize]) -> bool
    ensures { IsTrue result ↔ IsStrictlyIncreasing places.now }
{
    for k in 1..places.len() {
        if places[k] <= places[k - 1] {
            return false;
        }
    }
    true
}
