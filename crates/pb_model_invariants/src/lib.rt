//! Properties that say the same of each reached state, and the one fixpoint that says what several
//! of them say: one exploration decides them together where it is satisfied.
#![tactic(auto)]

mod conjuncts;
mod formula_copy;
mod greatest;
mod invariant;
mod joint;
mod laws;
mod step_set_copy;

pub use invariant::is_invariant;
pub use joint::joint_invariant;
pub use laws::joint_invariants_hold;
