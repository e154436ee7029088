//! The laws of compiled modules. The functions do nothing.

ghost use Rattle.std.specs.Prelude.{◌≡◌, true};
ghost use Rattle.pb_text_tree.specs.Form.{SpecForm};
ghost use Rattle.pb_text_meaning.specs.Erase.{erase};
ghost use Rattle.pb_text_meaning.specs.Syntax.{Spec};
ghost use Rattle.pb_typing_rules.specs.WellTyped.{IsWellTyped};
ghost use Rattle.pb_typing.specs.Typed.{is_faultless};
ghost use Rattle.pb_bytecode.specs.Contents.{Contents};
ghost use Rattle.pb_verifier.specs.Acceptance.{IsAccepted};
ghost use Rattle.pb_assembler_modules.specs.Answers.{HasMeaningOf};
ghost use Rattle.pb_assembler_modules.specs.Module.{IsCompiledModule, KeepsAllLimits};

/// The module that the scheme makes of a well-typed specification, and so of a text that typing
/// accepts, is accepted, where its code keeps the machine's limits.
pub fn compiled_modules_are_accepted()
    ensures well_typed { (spec : Spec) → IsWellTyped spec → (m : Contents) → IsCompiledModule spec m
        → KeepsAllLimits spec m → IsAccepted m }
    ensures accepted { (text : SpecForm) → is_faultless text ≡ true → (m : Contents)
        → IsCompiledModule (erase text) m → KeepsAllLimits (erase text) m → IsAccepted m }
{
    pb_assembler_scheme::compiled_equations_are_accepted();
}

/// Whatever trees the runs of its instances end with, the module has the answer of the
/// specification, and so of a text that typing accepts; each of its instances is true exactly where
/// the text's is, and each tree exactly where the text's equation holds.
pub fn compiled_modules_have_the_answer()
    ensures well_typed { (spec : Spec) → IsWellTyped spec → (m : Contents) → IsCompiledModule spec m
        → HasMeaningOf spec m }
    ensures accepted { (text : SpecForm) → is_faultless text ≡ true → (m : Contents)
        → IsCompiledModule (erase text) m → HasMeaningOf (erase text) m }
{
    pb_assembler_scheme::made_programs_are_the_schemes();
    pb_assembler_scheme::compiled_equations_decide();
}

/// A specification has at most one module that the scheme makes of it.
pub fn compiled_modules_are_unique()
    ensures { (spec : Spec) (m n : Contents) → IsCompiledModule spec m → IsCompiledModule spec n
        → m ≡ n }
{}
