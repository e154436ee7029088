//! What bytes spell. The function does nothing: laws stand on its contract.
ghost use Rattle.std.specs.Prelude.{ℕ, List};
ghost use Rattle.pb_sorts.specs.declared.counting.Counting.{Counting};
ghost use Rattle.pb_sorts.specs.declared.counting.Counting.TheVariants.{Declared, Reached};
ghost use Rattle.pb_bytecode.specs.Contents.{Contents};
ghost use Rattle.pb_command_modules.specs.Answers.{HoldsOfOne, IsModuleOfCode, Spell};

use pb_bytecode::laws::no_spelling_begins_another;

/// Bytes spell one module at most, whichever instances count: what is said of a module that they
/// spell is said of each. Where only the reached ones count, the bytes still spell what they spell
/// where each counts that is declared.
pub fn bytes_spell_one_module()
    ensures spelled { (counting : Counting) (bytes : List ℕ) → HoldsOfOne (Spell counting bytes) }
    ensures accepted { (counting : Counting) (bytes : List ℕ)
        → HoldsOfOne (IsModuleOfCode counting bytes) }
    ensures still { (bytes : List ℕ) (m : Contents) → Spell Declared bytes m
        → Spell Reached bytes m }
{
    no_spelling_begins_another();
}
