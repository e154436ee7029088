//! What is known of printed texts.

ghost use Rattle.std.specs.Prelude.{◌≡◌, ℕ, List, [], ◌∷◌, ◌++◌, codes};
ghost use Rattle.pb_text_tree.specs.Form.{SpecForm};
ghost use Rattle.pb_text.specs.Parsing.{IsReading};
ghost use Rattle.pb_text_printer.specs.Comments.{comment_bytes};
ghost use Rattle.pb_text_printer.specs.Printing.{IsPrinted, IsSayable, ReadsAs, ReadsWithin};
ghost use Rattle.pb_text_printer.specs.Words.{text_bytes};

/// The words of a text that was read are read back as that text but for places, within the same
/// limits of nesting and of operators: whatever bytes are cut into these words, with the text's
/// range lines, say it.
pub fn printed_words_are_read_back()
    ensures { (bytes printed : List ℕ) (x : SpecForm) → IsReading bytes x → IsPrinted printed x
        → ReadsAs printed x }
{}

/// A text that was read can be printed: its range lines, and then its words with brackets only
/// where the grammar needs them, say that text but for places, within the same limits.
pub fn printed_text_is_read_back()
    ensures { (bytes : List ℕ) (x : SpecForm) → IsReading bytes x → ReadsAs (text_bytes x) x }
{}

/// A text that can be said within so many levels and operators is read back from what is printed of
/// it within as many, whether it was read or made.
pub fn sayable_text_is_read_back()
    ensures { (depth operators : ℕ) (x : SpecForm) → IsSayable depth operators x
        → ReadsWithin depth operators (text_bytes x) x }
{}

/// So is it from what is printed of it below any comment.
pub fn commented_text_is_read_back()
    ensures { (depth operators : ℕ) (comment : List ℕ) (x : SpecForm) → IsSayable depth operators x
        → ReadsWithin depth operators (comment_bytes comment ++ text_bytes x) x }
{}

/// A comment of two lines, as the definition computes it; what ends the second one isn't in it.
pub fn worked_comment()
    ensures { comment_bytes (codes "p = 1" ++ (10 ∷ codes "q = 2"))
        ≡ codes "% p = 1" ++ (10 ∷ codes "% q = 2" ++ 10 ∷ []) }
{}
