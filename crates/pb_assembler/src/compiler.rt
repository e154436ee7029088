//! From normal forms to modules.

ghost use Rattle.std.specs.Prelude.{◌≡◌, IfOk};
ghost use Rattle.pb_text_tree.specs.Form.{spec_form};
ghost use Rattle.pb_text_meaning.specs.Erase.{erase};
ghost use Rattle.pb_bytecode.specs.Decoded.{module_contents};
ghost use Rattle.pb_bytecode.specs.Meaning.{parameters};
ghost use Rattle.pb_verifier.specs.Acceptance.{IsAccepted};
ghost use Rattle.pb_assembler_modules.specs.Answers.{HasMeaningOf};
ghost use Rattle.pb_assembler_modules.specs.Module.{IsCompiledModule, KeepsAllLimits};
ghost use Rattle.pb_assembler_measures.specs.Excess.{IsFirstExcess};
ghost use Rattle.pb_base.specs.OrMemory.{IfRefused};

use crate::equation::compile_equations;
use crate::initial::initial;
use crate::laws::accepted_texts_can_be_compiled;
use crate::sort::sorts;
use pb_assembler_measures::{CompileError, measures_within_limits};
use pb_assembler_modules::laws::{compiled_modules_are_accepted, compiled_modules_have_the_answer};
use pb_bytecode::{Module, Version};
use pb_normal::Normal;
use std::alloc::Global;

/// The module that the compile scheme makes of a text's normal form: the right sides of its
/// equations are code that writes and/or trees. It is always accepted, and has the text's meaning.
///
/// # Errors
/// An excess exactly where the code of an equation exceeds a limit of the machine: the first such
/// equation, with the least of its limits in the order of their numbers. `Memory` only where memory
/// was refused.
pub fn compile(alloc: Global, normal: &Normal<'_>) -> Result<Module, CompileError>
    // The module is the scheme's.
    ensures module { IfOk result (λ m. IsCompiledModule
        (erase (spec_form normal.now.typed.now.spec)) (module_contents m)) }
    // Its code keeps the machine's limits.
    ensures kept { IfOk result (λ m. KeepsAllLimits (erase (spec_form normal.now.typed.now.spec))
        (module_contents m)) }
    // The carriers of its parameters are those of the text's layout.
    ensures laid_out { IfOk result
        (λ m. parameters (module_contents m) ≡ normal.now.typed.now.layout) }
    // It is accepted.
    ensures accepted { IfOk result (λ m. IsAccepted (module_contents m)) }
    // Whichever trees the runs of its instances end with, they say what the text says.
    ensures meaning { IfOk result (λ m. HasMeaningOf (erase (spec_form normal.now.typed.now.spec))
        (module_contents m)) }
    // The first equation that exceeds a limit, with its least limit.
    ensures refused { IfRefused result
        (IsFirstExcess (erase (spec_form normal.now.typed.now.spec))) }
{
    compiled_modules_are_accepted();
    compiled_modules_have_the_answer();
    accepted_texts_can_be_compiled();
    let measures = measures_within_limits(alloc, normal)?;
    let spec = &normal.typed.spec;
    let layout = &normal.typed.layout;
    let sorts = sorts(alloc, &spec.sorts)?;
    let equations = compile_equations(
        alloc,
        layout,
        &spec.equations,
        &normal.equations,
        &measures,
    )?;
    let initial = initial(alloc, normal)?;
    Ok(Module {
        version: Version::One,
        sorts,
        equations,
        initial,
    })
}
