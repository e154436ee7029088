//! What sees how far the work on a module has come.
use pb_exploration::{Gate, NoGate};

/// A part of the work on a module, in the order in which they come.
#[derive(Clone, Copy, PartialEq, Eq)]
pub enum Phase {
    /// Its instances are explored.
    Exploring,
    /// Their game is built.
    Building,
    /// The game is solved.
    Solving,
    /// A solution of it is checked.
    Checking,
}

/// A gate that also sees each part of the work begin.
pub trait Progress: Gate {
    /// Progress may be shown from now on, since the words of the command line ask for it.
    fn watch(&self) {}

    /// A part of the work begins. Where a few instances are solved first, those nearest to the
    /// initial one, only the checks of their solutions are seen.
    fn begins(&self, _phase: Phase) {}
}

impl Progress for NoGate {}
