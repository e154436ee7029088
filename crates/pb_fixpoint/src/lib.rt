//! The nested solution of a sequence of fixpoint equations (Groote and Willemse 2005), for any kind
//! of instances, and its laws. Texts, modules and games all mean what they mean by this one
//! definition, in `specs/Solution.antt`.
#![tactic(auto)]

ghost use Rattle.std.specs.Prelude.{Bool, List};
ghost use Rattle.pb_fixpoint.specs.Fixpoint.{AreInstances, AreMonotone, IsMonotone, IsSolved};
ghost use Rattle.pb_fixpoint.specs.Fixpoint.{Within};
ghost use Rattle.pb_fixpoint.specs.Solution.{Environment, Equation, solution};
ghost use Rattle.pb_fixpoint.specs.Transfer.{AreSame, Matches};

/// Which fixpoint an equation asks for: the least (`mu`) or the greatest (`nu`).
#[derive(Clone, Copy, Debug, PartialEq, Eq)]
pub enum Sign {
    Mu,
    Nu,
}

/// Where right sides are monotone, the set that an equation gets is a fixpoint of its operator,
/// the least for `mu` and the greatest for `nu`.
pub fn sets_are_extreme_fixpoints<I>()
    ensures { (X : Equation I) (E : List (Equation I)) (t : Environment I) (all : List I)
        → IsMonotone X → AreMonotone E → AreInstances X all → IsSolved X E t }
{}

/// Where right sides are monotone, more true instances outside make no instance false.
pub fn solution_is_monotone<I>()
    ensures { (E : List (Equation I)) (s t : Environment I) → AreMonotone E → Within s t
        → Within (solution E s) (solution E t) }
{}

/// Two sequences of the same equations, over two kinds of instances, have the same solution.
/// Where `known` holds, an instance of the one kind names one of the other by `named`.
pub fn solutions_match<I, J>()
    ensures { (known : J → Bool) (named : J → I) (E : List (Equation I)) (D : List (Equation J))
        (t : Environment I) (u : Environment J) → AreSame known named E D → Matches known named t u
        → Matches known named (solution E t) (solution D u) }
{}
