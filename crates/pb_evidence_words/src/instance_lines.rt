//! Lines of instances, each with those that it rests on and the steps that lead to them: for
//! programs that read evidence.

ghost use Rattle.std.specs.Prelude.{◌≡◌, ◌++◌, OnOk, string_bytes};
ghost use Rattle.pb_report.specs.EvidenceText.{cut_mark, truth_mark};
ghost use Rattle.pb_sorts.specs.Instance.{instance_of};
ghost use Rattle.pb_model_words.specs.View.{vocabulary_of};
ghost use Rattle.pb_evidence_words.specs.InstanceLines.{call_mark, told_dependencies, told_dependency};
ghost use Rattle.pb_evidence_words.specs.InstanceLines.{instance_line, instance_lines, instance_text};
ghost use Rattle.pb_evidence_words.specs.Ready.{call_said, told_of};
ghost use Rattle.pb_evidence_words.specs.WhyText.{line_instance};

use crate::caller::Caller;
use crate::dependency::Dependency;
use crate::line::Line;
use crate::telling::Telling;
use pb_model_words::{push_step_mark, push_values};
use pb_sorts::Instance;
use pb_typing_calls::MadeCall;
use std::alloc::AllocError;

fn push_truth(text: &mut String, truth: bool) -> Result<(), AllocError>
    ensures { OnOk result
        (string_bytes text.new ≡ string_bytes text.old ++ truth_mark truth) }
{
    if truth {
        text.push_str(" true:")
    } else {
        text.push_str(" false:")
    }
}

/// The word for a cut call, where there is one.
fn push_cut_mark(text: &mut String, cut: bool) -> Result<(), AllocError>
    ensures { OnOk result (string_bytes text.new ≡ string_bytes text.old ++ cut_mark cut) }
{
    if cut { text.push_str(" cut") } else { Ok(()) }
}

impl Telling<'_> {
    /// An instance by the name of its equation and its values.
    fn push_instance(&self, text: &mut String, instance: &Instance) -> Result<(), AllocError>
        ensures { OnOk result (string_bytes text.new ≡ string_bytes text.old
            ++ instance_text (told_of self.now.shown.now) (instance_of instance.now)) }
    {
        self.push_formula(text, instance)?;
        let values = instance.values.as_slice();
        push_values(self.alloc, text, self.shown.vocabulary, values)
    }

    /// The step of a call, where one is made and it stands at a step's name.
    fn push_call_mark(&self, text: &mut String, call: Option<&MadeCall>) -> Result<(), AllocError>
        ensures { OnOk result (string_bytes text.new ≡ string_bytes text.old
            ++ call_mark (vocabulary_of self.now.shown.now.vocabulary.now) (call_said call.entry)) }
    {
        match call {
            None => Ok(()),
            Some(call) => {
                let own = &call.own;
                push_step_mark(self.alloc, text, self.shown.vocabulary, call.place, own)
            }
        }
    }

    /// Puts the lines of all instances behind a text.
    pub(crate) fn push_instance_lines(&self, text: &mut String) -> Result<(), AllocError>
        ensures { OnOk result (string_bytes text.new ≡ string_bytes text.old
            ++ instance_lines (told_of self.now.shown.now)) }
    {
        for number in 0..self.shown.explanation.evidence.instances.len() {
            let line = Line {
                telling: &*self,
                number,
            };
            line.push_instance_line(text)?;
        }
        Ok(())
    }
}

impl Dependency<'_> {
    ghost use Rattle.pb_evidence_words.specs.Callers.{told_by};

    /// The instance, with the step that leads to it.
    fn push_dependency(&self, text: &mut String) -> Result<(), AllocError>
        ensures { OnOk result (string_bytes text.new ≡ string_bytes text.old
            ++ told_dependency (told_by self.now.caller.now.line) (line_instance
            (told_by self.now.caller.now.line) self.now.caller.now.line.number)
            self.now.number) }
    {
        let line = self.caller.line;
        let telling = line.telling;
        let called = telling.instance(self.number);
        text.push_str(" ")?;
        telling.push_instance(text, &called)?;
        let call = self.caller.call_to(&called)?;
        telling.push_call_mark(text, call)
    }
}

impl Caller<'_> {
    ghost use Rattle.pb_evidence_words.specs.Callers.{told_by};

    fn push_dependencies(&self, text: &mut String) -> Result<(), AllocError>
        ensures { OnOk result (string_bytes text.new ≡ string_bytes text.old
            ++ told_dependencies (told_by self.now.line) self.now.line.number) }
    {
        let evidence = &self.line.telling.shown.explanation.evidence;
        for number in evidence.dependencies(self.line.number) {
            let dependency = Dependency {
                caller: &*self,
                number: *number,
            };
            dependency.push_dependency(text)?;
        }
        Ok(())
    }
}

impl Line<'_> {
    ghost use Rattle.pb_evidence_words.specs.Callers.{told_by};

    fn push_instance_line(&self, text: &mut String) -> Result<(), AllocError>
        ensures { OnOk result (string_bytes text.new ≡ string_bytes text.old
            ++ instance_line (told_by self.now) self.now.number) }
    {
        let telling = self.telling;
        let caller = self.caller()?;
        telling.push_instance(text, &caller.instance)?;
        push_truth(text, telling.shown.truth())?;
        caller.push_dependencies(text)?;
        push_cut_mark(text, telling.is_cut(self.number))?;
        text.push_str("\n")
    }
}
