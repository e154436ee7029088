//! The vertices of a game from some vertex to the last one, as flat lists that begin with the last
//! one. A vertex that is put before them goes to the end of each list, so nothing moves until all
//! lists are turned round at the end.
ghost use Rattle.std.specs.Prelude.{◌≡◌, ◌∷◌, ◌++◌, ◌+◌, ◌-◌, ◌^◌, ◌<◌, ◌≤◌, All, IfOk, OnOk};
ghost use Rattle.std.specs.Prelude.{List, [], drop, map, reverse};
ghost use Rattle.pb_fixpoint_trees.specs.Game.{Vertex, rising};
ghost use Rattle.pb_game_of_trees.specs.Draft.{IsDraft, ArePartsOf};
ghost use Rattle.pb_game.specs.declared.limits.TheConstants.{MAX_GAME_VERTICES};

use crate::falling::push_falling;
use pb_fixpoint_trees::push;
use pb_game::{Game, Parts, Player};
use std::alloc::{AllocError, Global};

#[derive(Drop)]
pub(crate) struct Draft {
    pub owners: Vec<Player>,
    pub priorities: Vec<u32>,
    /// For each vertex how many edges leave it and those behind it, and before these 0.
    pub edges: Vec<usize>,
    pub successors: Vec<u32>,
}

impl Draft {
    /// No vertices, with room for so many and their edges.
    pub fn with_capacity(alloc: Global, vertices: usize, edges: usize) -> Result<Draft, AllocError>
        requires { vertices ≤ MAX_GAME_VERTICES }
        ensures { IfOk result (λ draft. IsDraft draft []) }
    {
        let mut sums = Vec::with_capacity(alloc, vertices + 1)?;
        sums.push(0)?;
        Ok(Draft {
            owners: Vec::with_capacity(alloc, vertices)?,
            priorities: Vec::with_capacity(alloc, vertices)?,
            edges: sums,
            successors: Vec::with_capacity(alloc, edges)?,
        })
    }

    /// Puts a vertex before the others. Its targets come in reverse.
    pub fn put(
        &mut self,
        owner: Player,
        priority: u32,
        targets: &mut [u32],
    ) -> Result<(), AllocError>
        ensures { OnOk result ((vertices : List Vertex) → IsDraft self.old vertices
            → IsDraft self.new (record {
              owner = owner;
              priority = priority;
              successors = rising (reverse targets.old);
            } ∷ vertices)) }
    {
        push_falling(&mut self.successors, targets)?;
        push(&mut self.edges, self.successors.len())?;
        push(&mut self.priorities, priority)?;
        push(&mut self.owners, owner)?;
        Ok(())
    }

    /// Puts a vertex with one successor before the others.
    pub fn put_one(&mut self, owner: Player, priority: u32, target: u32) -> Result<(), AllocError>
        ensures { OnOk result ((vertices : List Vertex) → IsDraft self.old vertices
            → IsDraft self.new (record {
              owner = owner;
              priority = priority;
              successors = target ∷ [];
            } ∷ vertices)) }
    {
        push(&mut self.successors, target)?;
        push(&mut self.edges, self.successors.len())?;
        push(&mut self.priorities, priority)?;
        push(&mut self.owners, owner)?;
        Ok(())
    }

    /// Puts vertices before the others.
    pub fn append(&mut self, before: Draft) -> Result<(), AllocError>
        requires { (vertices : List Vertex) × IsDraft before vertices }
        ensures { OnOk result ((vertices others : List Vertex) → IsDraft self.old others
            → IsDraft before vertices → IsDraft self.new (vertices ++ others)) }
    {
        let Draft {
            mut owners,
            mut priorities,
            edges,
            mut successors,
        } = before;
        let behind = self.successors.len();
        self.successors.append(&mut successors)?;
        append_sums(&mut self.edges, &edges, behind)?;
        self.priorities.append(&mut priorities)?;
        self.owners.append(&mut owners)?;
        Ok(())
    }

    /// The lists from the first vertex on.
    pub fn into_parts(self) -> Parts
        requires { (vertices : List Vertex) × IsDraft self vertices }
        ensures { (vertices : List Vertex) → IsDraft self vertices → ArePartsOf result vertices }
    {
        let Draft {
            mut owners,
            mut priorities,
            edges: mut places,
            mut successors,
        } = self;
        owners.reverse();
        priorities.reverse();
        successors.reverse();
        places.reverse();
        subtract_from(successors.len(), &mut places);
        Parts {
            owners,
            priorities,
            places,
            successors,
        }
    }
}

/// Adds the numbers of edges that leave vertices and those behind these, of which `behind` leave
/// those that were there before.
fn append_sums(sums: &mut Vec<usize>, others: &[usize], behind: usize) -> Result<(), AllocError>
    requires { All (λ n. behind + n < 2 ^ 64) others.now }
    ensures { OnOk result
        (sums.new.items ≡ sums.old.items ++ map (λ n. behind + n) (drop 1 others.now)) }
{
    for k in 1..others.len() {
        push(sums, behind + others[k])?;
    }
    Ok(())
}

/// Replaces each number by how far it is below the total.
fn subtract_from(total: usize, numbers: &mut [usize])
    requires { All (λ n. n ≤ total) numbers.old }
    ensures { numbers.new ≡ map (λ n. total - n) numbers.old }
{
    for number in numbers.iter_mut() {
        *number = total - *number;
    }
}
