//! What stands below a line: edges to other lines, calls outside the ranges, and the state where
//! nothing more is called.

ghost use Rattle.std.specs.Prelude.{◌≡◌, ◌==◌, ◌||◌, ◌+◌, ◌++◌, not, OnOk, codes};
ghost use Rattle.std.specs.Prelude.{decimal, flat_map, map, string_bytes};
ghost use Rattle.pb_typing_calls.specs.MadeCallView.{call_view, call_views};
ghost use Rattle.pb_base_values.specs.Carrier.{is_within};
ghost use Rattle.pb_sorts.specs.Carrier.{values_of};
ghost use Rattle.pb_sorts.specs.Instance.{instance_of, is_instance};
ghost use Rattle.pb_sorts.specs.Layout.{carriers_of};
ghost use Rattle.pb_bytecode.specs.Meaning.{parameters};
ghost use Rattle.pb_evidence_words.specs.Ready.{told_of};
ghost use Rattle.pb_evidence_words.specs.WhyText.{asks_at, cut_text, is_cut_at, stuck_text};
ghost use Rattle.pb_evidence_words.specs.WhyText.{test_text};

use crate::asking::asks_test;
use crate::caller::Caller;
use crate::dependency::Dependency;
use crate::line::Line;
use crate::lines::rests_on_one;
use crate::numbers::push_line_number;
use crate::passing::Arrival;
use crate::telling::Telling;
use pb_model_words::push_state;
use pb_sorts::{Carrier, Instance};
use pb_typing_calls::MadeCall;
use std::alloc::{AllocError, Global};

/// Whether each value is in its carrier, and there are no others.
fn are_within(carriers: &[Carrier], values: &[i64]) -> bool
    ensures { result ≡ is_within (map values_of carriers.now) values.now }
{
    if carriers.len() != values.len() {
        return false;
    }
    for k in 0..carriers.len() {
        if !carriers[k].contains(values[k]) {
            return false;
        }
    }
    true
}

/// Whether there is an edge to a line, which comes from its parent, from another one.
pub(crate) fn is_edge(target: usize, parent: usize, line: usize) -> bool
    ensures { result ≡ ((target == 0) || not (parent == line)) }
{
    target == 0 || parent != line
}

/// To a line that makes a cycle.
fn push_back(alloc: Global, text: &mut String, line: usize) -> Result<(), AllocError>
    ensures { OnOk result (string_bytes text.new ≡ string_bytes text.old
        ++ (codes ", back to line " ++ (decimal (line + 1) ++ codes ", for ever\n"))) }
{
    text.push_str(", back to line ")?;
    push_line_number(alloc, text, line)?;
    text.push_str(", for ever\n")
}

/// To any other line.
fn push_on(alloc: Global, text: &mut String, line: usize) -> Result<(), AllocError>
    ensures { OnOk result (string_bytes text.new ≡ string_bytes text.old
        ++ (codes ", to line " ++ (decimal (line + 1) ++ codes "\n"))) }
{
    text.push_str(", to line ")?;
    push_line_number(alloc, text, line)?;
    text.push_str("\n")
}

/// The test that decides.
fn push_test(text: &mut String, truth: bool) -> Result<(), AllocError>
    ensures { OnOk result
        (string_bytes text.new ≡ string_bytes text.old ++ test_text truth) }
{
    if truth {
        text.push_str(" the test holds")
    } else {
        text.push_str(" the test fails")
    }
}

/// Why nothing is called where no step can be taken.
fn push_stuck(text: &mut String, asks: bool, truth: bool) -> Result<(), AllocError>
    ensures { OnOk result
        (string_bytes text.new ≡ string_bytes text.old ++ stuck_text asks truth) }
{
    if !asks {
        return text.push_str(" no step can be taken");
    }
    push_test(text, truth)?;
    text.push_str(", and no step can be taken")
}

impl Telling<'_> {
    /// Whether the right side of the instance's equation asks a test, beside the guards of steps.
    fn asks(&self, instance: &Instance) -> bool
        ensures { result ≡ asks_at (told_of self.now.shown.now) (instance_of instance.now) }
    {
        let equations = &self.shown.typed.spec.equations;
        match equations.get(usize::from(instance.equation)) {
            Some(equation) => asks_test(self.shown.vocabulary, &equation.right),
            None => true,
        }
    }

    /// Whether a call names an instance of the layout.
    fn is_inside(&self, call: &MadeCall) -> bool
        ensures { result ≡ is_instance (carriers_of (parameters self.now.shown.now.verified.now))
            (call_view call.now).instance }
    {
        let layout = self.shown.verified.layout();
        call.equation < layout.equation_count()
            && are_within(layout.carriers(call.equation), &call.values)
    }

    fn push_cut(
        &self,
        text: &mut String,
        before: &Instance,
        call: &MadeCall,
    ) -> Result<(), AllocError>
        ensures { OnOk result (string_bytes text.new ≡ string_bytes text.old
            ++ cut_text (told_of self.now.shown.now) (instance_of before.now)
            (call_view call.now)) }
    {
        if self.is_inside(call) {
            return Ok(());
        }
        text.push_str("  ")?;
        self.push_call(text, before, call)?;
        text.push_str(", outside the ranges\n")
    }

    /// The calls outside the ranges.
    fn push_cuts(&self, text: &mut String, caller: &Caller) -> Result<(), AllocError>
        ensures { OnOk result (string_bytes text.new ≡ string_bytes text.old
            ++ flat_map (cut_text (told_of self.now.shown.now)
            (instance_of caller.now.instance)) (call_views caller.now.calls.items)) }
    {
        for call in &caller.calls {
            self.push_cut(text, &caller.instance, call)?;
        }
        Ok(())
    }

    /// Whether a line rests on a cut call.
    pub(crate) fn is_cut(&self, line: usize) -> bool
        ensures { result ≡ is_cut_at (told_of self.now.shown.now) line }
    {
        match self.shown.explanation.cuts.get(line) {
            Some(cut) => *cut,
            None => false,
        }
    }
}

impl Dependency<'_> {
    ghost use Rattle.pb_evidence_words.specs.Callers.{told_by};
    ghost use Rattle.pb_evidence_words.specs.WhyText.{edge_text};

    /// The move to the instance, unless its line is shown to come from this one.
    fn push_edge(&self, text: &mut String) -> Result<(), AllocError>
        ensures { OnOk result (string_bytes text.new ≡ string_bytes text.old
            ++ edge_text (told_by self.now.caller.now.line) self.now.caller.now.line.number
            self.now.number) }
    {
        let line = self.caller.line;
        let telling = line.telling;
        let target = telling.target(self.number);
        let parent = telling.lines.parents[target];
        if !is_edge(target, parent, line.number) {
            return Ok(());
        }
        let called = telling.instance(self.number);
        text.push_str("  ")?;
        self.caller.push_move_to(text, &called)?;
        line.push_target(text, target)
    }
}

impl Caller<'_> {
    ghost use Rattle.pb_evidence_words.specs.Callers.{told_by};
    ghost use Rattle.pb_evidence_words.specs.WhyText.{cuts_text, dependencies_at, edge_text};

    fn push_edges(&self, text: &mut String) -> Result<(), AllocError>
        ensures { OnOk result (string_bytes text.new ≡ string_bytes text.old
            ++ flat_map (edge_text (told_by self.now.line) self.now.line.number)
            (dependencies_at (told_by self.now.line) self.now.line.number)) }
    {
        let evidence = &self.line.telling.shown.explanation.evidence;
        for number in evidence.dependencies(self.line.number) {
            let dependency = Dependency {
                caller: &*self,
                number: *number,
            };
            dependency.push_edge(text)?;
        }
        Ok(())
    }

    fn push_cuts_at(&self, text: &mut String) -> Result<(), AllocError>
        ensures { OnOk result (string_bytes text.new ≡ string_bytes text.old
            ++ cuts_text (told_by self.now.line) self.now.line.number) }
    {
        let telling = self.line.telling;
        if telling.is_cut(self.line.number) {
            telling.push_cuts(text, self)
        } else {
            Ok(())
        }
    }
}

impl Line<'_> {
    ghost use Rattle.std.specs.Prelude.{◌<◌};
    ghost use Rattle.pb_evidence_words.specs.Callers.{IsParent, told_by};
    ghost use Rattle.pb_evidence_words.specs.Order.{leads_back};
    ghost use Rattle.pb_evidence_words.specs.Passing.{IsArrival};
    ghost use Rattle.pb_evidence_words.specs.WhyText.{below_text, end_text, here_text};
    ghost use Rattle.pb_evidence_words.specs.WhyText.{line_instance};
    ghost use Rattle.pb_evidence_words.specs.WhyText.{reason_text, target_text, written_text};

    /// Whether the lines from a target to this one go round, where this one leads to the target.
    fn leads_back(&self, target: usize) -> bool
        ensures { result ≡ leads_back (told_by self.now).graph (told_by self.now).cuts
            self.now.number target }
    {
        let explanation = self.telling.shown.explanation;
        if !rests_on_one(&explanation.evidence, &explanation.cuts, self.number) {
            return false;
        }
        target <= self.number && self.telling.lines.starts[self.number] <= target
    }

    fn push_target(&self, text: &mut String, target: usize) -> Result<(), AllocError>
        ensures { OnOk result (string_bytes text.new ≡ string_bytes text.old
            ++ target_text (told_by self.now) self.now.number target) }
    {
        if self.leads_back(target) {
            push_back(self.telling.alloc, text, target)
        } else {
            push_on(self.telling.alloc, text, target)
        }
    }

    /// Whether the right side of the line's equation asks a test, beside the guards of steps.
    fn asks(&self) -> bool
        ensures { result ≡ asks_at (told_by self.now)
            (line_instance (told_by self.now) self.now.number) }
    {
        let instance = self.instance();
        self.telling.asks(&instance)
    }

    /// Why the line rests on no other.
    fn push_reason(&self, text: &mut String) -> Result<(), AllocError>
        ensures { OnOk result (string_bytes text.new ≡ string_bytes text.old
            ++ reason_text (told_by self.now) self.now.number) }
    {
        if self.telling.is_cut(self.number) {
            return Ok(());
        }
        let truth = self.telling.shown.truth();
        if self.is_stuck()? {
            push_stuck(text, self.asks(), truth)
        } else {
            push_test(text, truth)
        }
    }

    fn push_here(&self, text: &mut String) -> Result<(), AllocError>
        ensures { OnOk result (string_bytes text.new ≡ string_bytes text.old
            ++ here_text (told_by self.now) self.now.number) }
    {
        let instance = self.instance();
        text.push_str("  here")?;
        self.push_reason(text)?;
        text.push_str(": ")?;
        let state = instance.values.as_slice();
        push_state(
            self.telling.alloc,
            text,
            self.telling.shown.vocabulary,
            state,
        )?;
        text.push_str("\n")
    }

    fn push_end(&self, text: &mut String) -> Result<(), AllocError>
        ensures { OnOk result (string_bytes text.new ≡ string_bytes text.old
            ++ end_text (told_by self.now) self.now.number) }
    {
        let evidence = &self.telling.shown.explanation.evidence;
        if evidence.dependencies(self.number).is_empty() {
            self.push_here(text)
        } else {
            Ok(())
        }
    }

    /// Puts what stands below the line behind a text.
    pub(crate) fn push_below(&self, text: &mut String) -> Result<(), AllocError>
        ensures { OnOk result (string_bytes text.new ≡ string_bytes text.old
            ++ below_text (told_by self.now) self.now.number) }
    {
        let caller = self.caller()?;
        caller.push_edges(text)?;
        caller.push_cuts_at(text)?;
        self.push_end(text)
    }

    /// Puts the line and what stands below it behind a text, unless it passes on.
    pub(crate) fn push_written(
        &self,
        text: &mut String,
        parent: &Caller,
        arrival: Arrival,
    ) -> Result<(), AllocError>
        requires parent { 0 < self.now.number → IsParent parent.now self.now }
        requires arrival { IsArrival (told_by self.now) self.now.number arrival }
        ensures { OnOk result (string_bytes text.new ≡ string_bytes text.old
            ++ written_text (told_by self.now) self.now.number) }
    {
        if arrival.passes {
            return Ok(());
        }
        self.push(text, parent, arrival)?;
        self.push_below(text)
    }
}
