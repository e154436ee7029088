//! Which solver is asked for.
ghost use Rattle.std.specs.Prelude.{◌≡◌, Some, IfSome};
ghost use Rattle.pb_game.specs.SolverNames.{solver_name};

use std::fmt;

/// An algorithm for parity games. It shows as the word that asks for it, `zielonka` or `lift`.
#[derive(Clone, Copy, Default, PartialEq, Eq)]
pub enum Solver {
    /// Zielonka's recursive algorithm, by attractors (Zielonka 1998).
    #[default]
    Zielonka,
    /// Lifting of progress measures by many workers (Jurdzinski 2000).
    Lift,
}

impl Solver {
    ghost use Rattle.pb_game.specs.declared.solver.Solver.{Solver};

    /// The word that asks for it.
    pub fn name(self) -> &'static str
        ensures { result.now ≡ solver_name self }
    {
        match self {
            Solver::Zielonka => "zielonka",
            Solver::Lift => "lift",
        }
    }

    /// The solver for which a word asks.
    pub fn named(name: &str) -> Option<Solver>
        ensures named { IfSome result (λ solver. name.now ≡ solver_name solver) }
        ensures every { (solver : Solver) → name.now ≡ solver_name solver → result ≡ Some solver }
    {
        match name {
            "zielonka" => Some(Solver::Zielonka),
            "lift" => Some(Solver::Lift),
            _ => None,
        }
    }
}

impl fmt::Display for Solver {
    ghost output = { λ solver. Some (solver_name solver) };

    fn fmt<W: fmt::Write>(&self, f: &mut fmt::Formatter<W>) -> fmt::Result {
        f.write_str(self.name())
    }
}
