//! The compile scheme: which code an equation has whose right side is in positive normal form.
//! Structured pieces stand between formulas and instructions (`specs/Pieces.antt`), and the scheme
//! is a function from formulas to pieces (`specs/Scheme.antt`). The laws below say that its code,
//! run, gives the formula's truth (`specs/Correct.antt`), so each equation's program the equation
//! (`specs/Equations.antt`), and all programs together the specification's answer
//! (`specs/System.antt`); and that the code which it makes of an accepted text is accepted
//! (`src/acceptance.rt`). Definitions and laws alone, so that the compiler can speak of them.
#![tactic(auto)]

mod acceptance;

ghost use Rattle.std.specs.Prelude.{◌≡◌, ℕ, true, List};
ghost use Rattle.std.specs.List.{All};
ghost use Rattle.pb_base_values.specs.Carrier.{Tuple};
ghost use Rattle.pb_fixpoint_trees.specs.Tree.{Tree};
ghost use Rattle.pb_text_tree.specs.Form.{SpecForm};
ghost use Rattle.pb_text_meaning.specs.Erase.{erase};
ghost use Rattle.pb_text_meaning.specs.Syntax.{Equation, Spec};
ghost use Rattle.pb_typing_rules.specs.WellTyped.{IsWellTyped};
ghost use Rattle.pb_typing.specs.Typed.{is_faultless};
ghost use Rattle.pb_bytecode_program.specs.Machine.{Program};
ghost use Rattle.pb_bytecode_program.specs.Safety.{AreArguments, EndsWith};
ghost use Rattle.pb_normal.specs.Normal.{Formula};
ghost use Rattle.pb_assembler_scheme.specs.Correct.{Declares, Decides, HasFullCalls, TreeHasTruth};
ghost use Rattle.pb_assembler_scheme.specs.Correct.{IsCompiled, IsFaultless};
ghost use Rattle.pb_assembler_scheme.specs.Equations.{DecidesEquation, IsProgramOf};
ghost use Rattle.pb_assembler_scheme.specs.Examples.{CountdownIsCompiled, OthersAreCompiled};
ghost use Rattle.pb_assembler_scheme.specs.System.{ArePrograms, AreTrees, HaveAnswer};

pub use acceptance::{
    compiled_equations_are_accepted, made_programs_are_the_schemes, programs_weigh_as_pieces,
};

/// Where the scheme's program of a right side doesn't fault at an instance, its run there ends, and
/// what it has written is one tree. Under every environment of instance numbers the tree has the
/// right side's truth at that instance.
pub fn compiled_code_decides()
    ensures faultless { (spec : Spec) (p : Program) (f : Formula) (tuple : Tuple) → IsCompiled p f
        → HasFullCalls p.callees f
        → Declares spec p.callees → AreArguments p.parameters tuple → IsFaultless p tuple
        → Decides spec p f tuple }
    ensures ended { (spec : Spec) (p : Program) (f : Formula) (tuple : Tuple) (tree : Tree)
        → IsCompiled p f → HasFullCalls p.callees f
        → Declares spec p.callees → AreArguments p.parameters tuple → EndsWith p tuple tree
        → TreeHasTruth spec f tuple tree }
{
    pb_fixpoint_trees::tokens_determine_tree();
}

/// In a well-typed specification, a tree with which the run of an equation's program ends is true
/// exactly where the equation holds.
pub fn compiled_equations_decide()
    ensures { (spec : Spec) → IsWellTyped spec
        → All (λ (X : Equation). (p : Program) → IsProgramOf spec X p
        → DecidesEquation spec X p) spec.equations }
{
    compiled_code_decides();
    pb_normal::laws::normal_equations_keep_truth();
}

/// Let each equation of a well-typed specification, or of a text that typing accepts, have the
/// scheme's program, and each instance, by its number, a tree with which its program's run ends.
/// Then the equations of these trees have the specification's answer.
pub fn compiled_systems_have_the_answer()
    ensures well_typed { (spec : Spec) → IsWellTyped spec → (programs : List Program)
        → ArePrograms spec spec.equations programs
        → (trees : ℕ → Tree) → AreTrees spec programs trees → HaveAnswer spec trees }
    ensures accepted { (text : SpecForm) → is_faultless text ≡ true
        → (programs : List Program) → ArePrograms (erase text) (erase text).equations programs
        → (trees : ℕ → Tree) → AreTrees (erase text) programs trees
        → HaveAnswer (erase text) trees }
{
    compiled_equations_decide();
}

/// Two equations with their normal forms, the programs that the scheme gives them, and what these
/// write at an instance.
pub fn worked_examples()
    ensures others { OthersAreCompiled }
    ensures countdown { CountdownIsCompiled }
{}
