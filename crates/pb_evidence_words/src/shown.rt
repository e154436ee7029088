//! What is shown.

use pb_model_tree::Model;
use pb_model_words::Vocabulary;
use pb_report::Explanation;
use pb_typing::Typed;
use pb_verifier::Verified;

/// A model, the words in which it is told, the text of its property and that of its every step, the
/// property's module, and why its initial instance is true or false. Where it is `denied`, the
/// text, the module and the evidence are those of the property's negation, whose text has the same
/// names at the same places: each instance of the property has the opposite truth value then.
#[derive(Clone, Copy)]
pub struct Shown<'a> {
    pub model: &'a Model,
    pub vocabulary: &'a Vocabulary<'a>,
    pub typed: &'a Typed,
    pub steps: &'a Typed,
    pub verified: &'a Verified,
    pub explanation: &'a Explanation,
    pub denied: bool,
}

impl Shown<'_> {
    ghost use Rattle.std.specs.Prelude.{◌≡◌};
    ghost use Rattle.pb_evidence_words.specs.Ready.{told_of};

    /// The truth value of the property's instances.
    pub(crate) fn truth(&self) -> bool
        ensures { result ≡ (told_of self.now).truth }
    {
        let truth = self.explanation.evidence.truth;
        if self.denied { !truth } else { truth }
    }
}
