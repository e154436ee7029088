//! What was known at the starts of the loops around a place.

ghost use Rattle.std.specs.Prelude.{◌≡◌, [], ◌∷◌, OnOk, Option};
ghost use Rattle.pb_bytecode_program.specs.Counts.{Leaves};
ghost use Rattle.pb_bytecode_program.specs.Transfer.{AbstractState as Known};
ghost use Rattle.pb_verifier.specs.Pass.{homes_after, innermost};

use pb_verifier_states::AbstractState;
use std::alloc::{AllocError, Global};
use std::marker::Model;

/// What was known at the starts of the loops around a place; nothing of a start that no way
/// reaches.
#[derive(Drop)]
pub(crate) struct OpenLoops {
    // The innermost last.
    starts: Vec<Option<AbstractState>>,
}

impl Model for OpenLoops {
    ghost use Rattle.std.specs.Prelude.{reverse};
    ghost use Rattle.pb_verifier.specs.Pass.{Homes};

    ghost Value = { Homes };

    ghost view = { λ loops. reverse loops.starts.items };
}

impl OpenLoops {
    /// No loop.
    pub(crate) fn new(alloc: Global) -> OpenLoops
        ensures { result ≡ [] }
    {
        OpenLoops {
            starts: Vec::new(alloc),
        }
    }

    /// Goes into a loop, of whose start this is known.
    pub(crate) fn enter(&mut self, start: Option<AbstractState>) -> Result<(), AllocError>
        ensures { OnOk result (self.new ≡ start ∷ self.old) }
    {
        self.starts.push(start)?;
        Ok(())
    }

    /// Leaves the innermost loop: what was known at its start, if there is a loop and a way reached
    /// it.
    pub(crate) fn leave(&mut self) -> Option<AbstractState>
        ensures start { result ≡ innermost self.old }
        ensures left { (known : Option Known) → self.new ≡ homes_after Leaves known self.old }
    {
        match self.starts.pop() {
            Some(start) => start,
            None => None,
        }
    }
}
