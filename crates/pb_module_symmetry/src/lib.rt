//! Symmetries of compiled modules. A map of instances that carries each equation of a text to
//! itself carries the tree of each instance's number to that of the image's number. No code is
//! here: each function's contract is a law.
#![tactic(auto)]

ghost use Rattle.pb_module_symmetry.specs.Laws.{CompiledModulesAreClosed};
ghost use Rattle.pb_module_symmetry.specs.Laws.{ModulesHaveTheSymmetriesOfTexts};
ghost use Rattle.pb_module_symmetry.specs.Laws.{ModulesOfModelsAreSymmetric};

/// A symmetry of a text's equations is one of its module's.
pub fn modules_have_the_symmetries_of_texts()
    ensures { ModulesHaveTheSymmetriesOfTexts }
{
    pb_assembler_scheme::made_programs_are_the_schemes();
    pb_assembler_scheme::compiled_equations_decide();
}

/// The trees of a compiled module call instances alone.
pub fn compiled_modules_are_closed()
    ensures { CompiledModulesAreClosed }
{
    pb_assembler_scheme::made_programs_are_the_schemes();
    pb_assembler_scheme::compiled_equations_decide();
}

/// A symmetry of the equations to which a model's formula is translated is one of their module.
pub fn modules_of_models_are_symmetric()
    ensures { ModulesOfModelsAreSymmetric }
{
    modules_have_the_symmetries_of_texts();
}
