//! Symmetries of a system of fixpoint equations: maps of instances that carry each right side to
//! the right side of the image. The nested solution is invariant under them, so that a call may be
//! replaced by the call of any instance to which a symmetry carries it (Ip and Dill 1996). No
//! code is here: each function's contract is a law.
#![tactic(auto)]

ghost use Rattle.pb_fixpoint_symmetry.specs.Laws.{SymmetriesKeepTheSolution, ReducedSystemsSuffice};
ghost use Rattle.pb_fixpoint_symmetry.specs.Laws.{SymmetriesCompose};
ghost use Rattle.pb_fixpoint_symmetry.specs.Laws.{CallsMayGoToRepresentatives};
ghost use Rattle.pb_fixpoint_symmetry.specs.Renaming.{RenamedSystemsAreClosed, SymmetriesAreRenamed};
ghost use Rattle.pb_fixpoint_symmetry.specs.Trees.{TreesMayCallRepresentatives};

/// The solution has one truth value at an instance and at that to which a symmetry carries it.
pub fn symmetries_keep_the_solution<I>()
    ensures { SymmetriesKeepTheSolution I }
{}

/// A reduced system has the solution of the system, at each known instance.
pub fn reduced_systems_suffice<I, G>()
    ensures { ReducedSystemsSuffice I G }
{}

/// The system whose calls go to representatives, by a function, is reduced.
pub fn calls_may_go_to_representatives<I, G>()
    ensures { CallsMayGoToRepresentatives I G }
{}

/// Where each tree calls instances to which symmetries carry those that it called, the trees have
/// the solution of the trees before.
pub fn trees_may_call_representatives<G>()
    ensures { TreesMayCallRepresentatives G }
{}

/// One symmetry after another is a symmetry.
pub fn symmetries_compose<I>()
    ensures { SymmetriesCompose I }
{}

/// A system's symmetry is one of the same system over other instances, along with their names.
pub fn symmetries_are_renamed<I, J>()
    ensures { SymmetriesAreRenamed I J }
{}

/// A system that is another one under other names reads known instances alone.
pub fn renamed_systems_are_closed<I, J>()
    ensures { RenamedSystemsAreClosed I J }
{}
