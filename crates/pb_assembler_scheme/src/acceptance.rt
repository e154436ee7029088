//! The code that the compile scheme makes of an accepted text is accepted. Definitions and laws
//! alone: which limits the machine has (`specs/Limits.antt`), and which programs are made of a
//! text's equations (`specs/Made.antt`).

ghost use Rattle.std.specs.Prelude.{◌≡◌, length, true};
ghost use Rattle.std.specs.List.{All};
ghost use Rattle.pb_text_tree.specs.Form.{SpecForm};
ghost use Rattle.pb_text_meaning.specs.Erase.{erase};
ghost use Rattle.pb_text_meaning.specs.Syntax.{Equation, Spec};
ghost use Rattle.pb_typing_rules.specs.WellTyped.{IsWellTyped};
ghost use Rattle.pb_typing.specs.Typed.{is_faultless};
ghost use Rattle.pb_bytecode_program.specs.Machine.{Program};
ghost use Rattle.pb_bytecode_program.specs.Counts.{one_step, static_steps, static_tokens};
ghost use Rattle.pb_bytecode_program.specs.Counts.{tokens_of};
ghost use Rattle.pb_bytecode_program.specs.Accepted.{Accepted, Table};
ghost use Rattle.pb_normal.specs.Normal.{Formula};
ghost use Rattle.pb_normal.specs.Equations.{normal_equation};
ghost use Rattle.pb_assembler_scheme.specs.Correct.{IsCompiled};
ghost use Rattle.pb_assembler_scheme.specs.Pieces.{end};
ghost use Rattle.pb_assembler_scheme.specs.Scheme.{equation_piece};
ghost use Rattle.pb_assembler_scheme.specs.Equations.{IsProgramOf};
ghost use Rattle.pb_assembler_scheme.specs.Limits.{KeepsLimits};
ghost use Rattle.pb_assembler_scheme.specs.Made.{IsMadeOf};
ghost use Rattle.pb_assembler_scheme.specs.Weights.{weight};

/// In a well-typed specification, and so in a text that typing accepts, the scheme's program of
/// each equation has an accepted table of abstract states, where it keeps the machine's limits.
pub fn compiled_equations_are_accepted()
    ensures well_typed { (spec : Spec) → IsWellTyped spec
        → All (λ (X : Equation). (p : Program) → IsMadeOf spec X p
        → KeepsLimits p (normal_equation spec X) → (table : Table)
        × Accepted p table) spec.equations }
    ensures accepted { (text : SpecForm) → is_faultless text ≡ true
        → All (λ (X : Equation). (p : Program) → IsMadeOf (erase text) X p
        → KeepsLimits p (normal_equation (erase text) X) → (table : Table) × Accepted p table)
        (erase text).equations }
{}

/// A program that is made of an equation, with the carriers that the text declares, is the scheme's
/// program of it.
pub fn made_programs_are_the_schemes()
    ensures { (spec : Spec) (X : Equation) (p : Program) → IsMadeOf spec X p
        → IsProgramOf spec X p }
{}

/// The instructions, steps and tokens of the scheme's program, counted on its piece.
pub fn programs_weigh_as_pieces()
    ensures instructions { (p : Program) (f : Formula) → IsCompiled p f
        → length p.code ≡ end 0 (equation_piece p.callees f) }
    ensures steps { (p : Program) (f : Formula) → IsCompiled p f
        → static_steps p ≡ weight p one_step 1 (equation_piece p.callees f) }
    ensures tokens { (p : Program) (f : Formula) → IsCompiled p f
        → static_tokens p ≡ weight p tokens_of 0 (equation_piece p.callees f) }
{}
