//! The line of an instance: its number, its formula, and how it is come to.

ghost use Rattle.std.specs.Prelude.{◌≡◌, ◌<◌, ◌++◌, IfOk, OnOk, length, string_bytes};
ghost use Rattle.pb_sorts.specs.Instance.{instance_of};
ghost use Rattle.pb_typing_calls.specs.MadeCallView.{call_views};
ghost use Rattle.pb_evidence_words.specs.Ready.{IsKnown, numbers_of, told_of};
ghost use Rattle.pb_evidence_words.specs.WhyText.{formula_text, is_empty};

use crate::caller::Caller;
use crate::numbers::push_line_number;
use crate::passing::Arrival;
use crate::telling::Telling;
use pb_model_words::push_state;
use pb_sorts::Instance;
use pb_typing_calls::MadeCall;
use std::alloc::AllocError;

/// A line that is told, by its number from 0 on.
#[derive(Clone, Copy)]
pub(crate) struct Line<'t> {
    pub telling: &'t Telling<'t>,
    pub number: usize,
    pub ghost inside: { number < length (numbers_of telling.now.shown.now) },
}

fn are_none(calls: &[MadeCall]) -> bool
    ensures { result ≡ is_empty (call_views calls.now) }
{
    calls.len() == 0
}

impl Telling<'_> {
    /// The name of the instance's equation.
    pub(crate) fn push_formula(
        &self,
        text: &mut String,
        instance: &Instance,
    ) -> Result<(), AllocError>
        ensures { OnOk result (string_bytes text.new ≡ string_bytes text.old
            ++ formula_text (told_of self.now.shown.now) (instance_of instance.now)) }
    {
        let equations = &self.shown.typed.spec.equations;
        match equations.get(usize::from(instance.equation)) {
            Some(equation) => text.push_str(equation.name.text.as_str()),
            None => Ok(()),
        }
    }
}

impl<'t> Line<'t> {
    ghost use Rattle.pb_evidence_words.specs.Callers.{IsParent, told_by};
    ghost use Rattle.pb_evidence_words.specs.Passing.{IsArrival};
    ghost use Rattle.pb_evidence_words.specs.WhyText.{from_text, is_stuck};
    ghost use Rattle.pb_evidence_words.specs.WhyText.{line_instance, line_text};

    /// The instance of the line.
    pub(crate) fn instance(&self) -> Instance
        ensures value { instance_of result ≡ line_instance (told_by self.now) self.now.number }
        ensures known { IsKnown self.now.telling.now.shown.now (instance_of result) }
    {
        let telling = self.telling;
        telling.instance(telling.shown.explanation.evidence.instances[self.number])
    }

    /// The line with its calls.
    pub(crate) fn caller(&self) -> Result<Caller<'t>, AllocError>
        ensures { IfOk result (λ caller. caller.line ≡ self.now) }
    {
        let instance = self.instance();
        let calls = self.telling.calls.calls(self.telling.alloc, &instance)?;
        Ok(Caller {
            line: *self,
            instance,
            calls,
        })
    }

    /// The line that this one comes from: that of the line before, where it is the same. The first
    /// line comes from none.
    pub(crate) fn parent(&self, last: Caller<'t>) -> Result<Caller<'t>, AllocError>
        requires { told_by last.line ≡ told_by self.now }
        ensures told { IfOk result (λ caller. told_by caller.line ≡ told_by self.now) }
        ensures parent { IfOk result (λ caller. 0 < self.now.number → IsParent caller self.now) }
    {
        if self.number == 0 {
            return Ok(last);
        }
        let number = self.telling.lines.parents[self.number];
        if number == last.line.number {
            return Ok(last);
        }
        let parent = Line {
            telling: self.telling,
            number,
        };
        parent.caller()
    }

    /// Whether no step leads away from the line's state.
    pub(crate) fn is_stuck(&self) -> Result<bool, AllocError>
        ensures { IfOk result (λ stuck. stuck
            ≡ is_stuck (told_by self.now) (line_instance (told_by self.now) self.now.number)) }
    {
        let mut state = self.instance();
        state.equation = 0;
        let calls = self.telling.steps.calls(self.telling.alloc, &state)?;
        Ok(are_none(&calls))
    }

    /// The line that the line comes from, where there are others between.
    fn push_from(&self, text: &mut String, arrival: Arrival) -> Result<(), AllocError>
        requires { IsArrival (told_by self.now) self.now.number arrival }
        ensures { OnOk result (string_bytes text.new ≡ string_bytes text.old
            ++ from_text (told_by self.now) self.now.number) }
    {
        if arrival.follows {
            return Ok(());
        }
        text.push_str("from ")?;
        push_line_number(self.telling.alloc, text, arrival.origin)?;
        text.push_str(" ")
    }

    /// Puts the line behind a text: how it is come to is said of the first one by its state, of any
    /// other by a move from its parent. The calls of the line that the first one comes from don't
    /// matter.
    pub(crate) fn push(
        &self,
        text: &mut String,
        parent: &Caller,
        arrival: Arrival,
    ) -> Result<(), AllocError>
        requires parent { 0 < self.now.number → IsParent parent.now self.now }
        requires arrival { IsArrival (told_by self.now) self.now.number arrival }
        ensures { OnOk result (string_bytes text.new ≡ string_bytes text.old
            ++ line_text (told_by self.now) self.now.number) }
    {
        let telling = self.telling;
        let instance = self.instance();
        push_line_number(telling.alloc, text, self.number)?;
        text.push_str(" ")?;
        telling.push_formula(text, &instance)?;
        if self.number == 0 {
            text.push_str(": ")?;
            let state = instance.values.as_slice();
            push_state(telling.alloc, text, telling.shown.vocabulary, state)?;
            return text.push_str("\n");
        }
        text.push_str(" ")?;
        self.push_from(text, arrival)?;
        parent.push_move_to(text, &instance)?;
        text.push_str("\n")
    }
}
