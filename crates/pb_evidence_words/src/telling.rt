//! All that is needed to write the lines, made ready once.

ghost use Rattle.std.specs.Prelude.{◌≡◌, ◌<◌, Contains, IfOk, length};
ghost use Rattle.pb_sorts.specs.Instance.{instance_of};
ghost use Rattle.pb_sorts.specs.Layout.{count_of};
ghost use Rattle.pb_bytecode.specs.Meaning.{parameters};
ghost use Rattle.pb_evidence.specs.Evidence.{graph_of};
ghost use Rattle.pb_evidence_words.specs.Order.{place_of};
ghost use Rattle.pb_evidence_words.specs.Ready.{IsKnown, IsReady, numbers_of, told_of};
ghost use Rattle.pb_evidence_words.specs.Tellable.{IsTellableShown};
ghost use Rattle.pb_evidence_words.specs.WhyText.{shown_instance};

use crate::lines::{Lines, place_in};
use crate::shown::Shown;
use pb_sorts::Instance;
use pb_typing_calls::CallPlaces;
use std::alloc::{AllocError, Global};

/// What is shown, with the calls of both texts and the order of the lines.
#[derive(Drop)]
pub(crate) struct Telling<'a> {
    pub alloc: Global,
    pub shown: &'a Shown<'a>,
    pub calls: CallPlaces<'a>,
    pub steps: CallPlaces<'a>,
    pub lines: Lines,
    pub ghost ready: { IsReady shown.now calls steps lines },
}

impl<'a> Telling<'a> {
    pub(crate) fn new(alloc: Global, shown: &'a Shown<'a>) -> Result<Telling<'a>, AllocError>
        requires { IsTellableShown shown.now }
        ensures shown { IfOk result (λ telling. telling.shown.now ≡ shown.now) }
    {
        let calls = CallPlaces::new(shown.typed);
        let steps = CallPlaces::new(shown.steps);
        let explanation = shown.explanation;
        let lines = Lines::new(alloc, &explanation.evidence, &explanation.cuts)?;
        Ok(Telling {
            alloc,
            shown,
            calls,
            steps,
            lines,
        })
    }
}

impl Telling<'_> {
    /// The instance with a number.
    pub(crate) fn instance(&self, number: u64) -> Instance
        requires { number < count_of (parameters self.now.shown.now.verified.now) }
        ensures value { instance_of result ≡ shown_instance (told_of self.now.shown.now) number }
        ensures known { IsKnown self.now.shown.now (instance_of result) }
    {
        self.shown.verified.layout().instance(number)
    }

    /// Where the line of an instance stands.
    pub(crate) fn target(&self, number: u64) -> usize
        requires { Contains (numbers_of self.now.shown.now) number }
        ensures place { result
            ≡ place_of (graph_of self.now.shown.now.explanation.now.evidence) number }
        ensures within { result < length (numbers_of self.now.shown.now) }
    {
        place_in(&self.lines.places, number)
    }
}
