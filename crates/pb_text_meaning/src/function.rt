//! The named functions of data. This is the one place that spells them: whoever reads a text asks
//! here which function a name is.

ghost use Rattle.std.specs.Prelude.{◌≡◌};
ghost use Rattle.pb_text_meaning.specs.Functions.{named_function};

/// A function that is there in each text.
#[derive(Clone, Copy, PartialEq, Eq)]
pub enum NamedFunction {
    If,
    Succ,
    Pred,
    Abs,
    Max,
    Min,
    Pos2Nat,
    Pos2Int,
    Nat2Int,
}

impl NamedFunction {
    /// The function of this name, if there is one.
    #[tactic(auto, unfolding(crate::specs::Functions::named_function))]
    pub fn named(name: &str) -> Option<NamedFunction>
        ensures { result ≡ named_function name.now }
    {
        match name {
            "if" => Some(NamedFunction::If),
            "succ" => Some(NamedFunction::Succ),
            "pred" => Some(NamedFunction::Pred),
            "abs" => Some(NamedFunction::Abs),
            "max" => Some(NamedFunction::Max),
            "min" => Some(NamedFunction::Min),
            "Pos2Nat" => Some(NamedFunction::Pos2Nat),
            "Pos2Int" => Some(NamedFunction::Pos2Int),
            "Nat2Int" => Some(NamedFunction::Nat2Int),
            _ => None,
        }
    }
}
