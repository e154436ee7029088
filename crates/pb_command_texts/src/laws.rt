//! Which instances count, and what is said of texts. The function does nothing: laws stand on its
//! contract.
ghost use Rattle.std.specs.Prelude.{ℕ, List};
ghost use Rattle.pb_sorts.specs.declared.counting.Counting.TheVariants.{Declared, Reached};
ghost use Rattle.pb_bytecode.specs.Contents.{Contents};
ghost use Rattle.pb_report.specs.declared.answer.Answer.{Answer};
ghost use Rattle.pb_command_texts.specs.Answers.{IsAnswer, IsModuleOfText};

/// A text that has a module, and an answer, where each instance counts that is declared has them
/// where only the reached ones count.
pub fn texts_keep_their_answers()
    ensures modules { (bytes : List ℕ) (m : Contents) → IsModuleOfText Declared bytes m
        → IsModuleOfText Reached bytes m }
    ensures answers { (bytes : List ℕ) (a : Answer) → IsAnswer Declared bytes a
        → IsAnswer Reached bytes a }
{}
