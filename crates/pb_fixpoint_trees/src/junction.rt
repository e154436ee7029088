//! What joins the operands of a bracket, of an instruction, or of a formula in normal form.

ghost use Rattle.std.specs.Prelude.{◌≡◌};
ghost use Rattle.pb_fixpoint_trees.specs.Junctions.{dual};

/// A conjunction or a disjunction, of any number of operands.
#[derive(Clone, Copy, Debug, PartialEq, Eq)]
pub enum Junction {
    Conjunction,
    Disjunction,
}

impl Junction {
    /// What a negation around turns it into (De Morgan).
    pub fn dual(self) -> Junction
        ensures { result ≡ dual self }
    {
        match self {
            Junction::Conjunction => Junction::Disjunction,
            Junction::Disjunction => Junction::Conjunction,
        }
    }
}
