//! Lines that only pass on to another fixpoint in the same state: they are left out.

ghost use Rattle.std.specs.Prelude.{◌≡◌, ◌==◌, ◌&&◌, ◌<◌, ◌-◌, suc, not, Contains, IfOk};
ghost use Rattle.pb_evidence_words.specs.Callers.{IsParent, told_by};
ghost use Rattle.pb_evidence_words.specs.Order.{has_edge, leads_on, place_of};
ghost use Rattle.pb_evidence_words.specs.Passing.{IsArrival};
ghost use Rattle.pb_evidence_words.specs.Ready.{call_said, numbers_of};
ghost use Rattle.pb_evidence_words.specs.WhyText.{dependencies_at, is_link, is_staying, is_left_out};
ghost use Rattle.pb_evidence_words.specs.WhyText.{stays_at};
ghost use Rattle.pb_model_words.specs.View.{vocabulary_of};

use crate::below::is_edge;
use crate::caller::Caller;
use crate::line::Line;
use pb_model_words::{Vocabulary, has_step};
use pb_typing_calls::MadeCall;
use std::alloc::AllocError;

/// How a line is come to: from which line, by way of those alone that pass on, whether there is no
/// other line between the two, and whether the line itself passes on.
#[derive(Clone, Copy)]
pub(crate) struct Arrival {
    pub origin: usize,
    pub follows: bool,
    pub passes: bool,
}

/// Whether a call isn't made at a step, so that the state stays.
fn is_staying(vocabulary: &Vocabulary<'_>, call: Option<&MadeCall>) -> bool
    ensures { result ≡ is_staying (vocabulary_of vocabulary.now) (call_said call.entry) }
{
    match call {
        None => false,
        Some(call) => !has_step(vocabulary, call.place),
    }
}

impl Line<'_> {
    /// Whether an instance that the line rests on is the next line's, which comes from it.
    fn is_next(&self, number: u64) -> bool
        requires { Contains (numbers_of self.now.telling.now.shown.now) number }
        ensures { result ≡ ((place_of (told_by self.now).graph number == suc self.now.number)
            && not (has_edge (told_by self.now).graph self.now.number number)) }
    {
        let target = self.telling.target(number);
        if target == 0 {
            return false;
        }
        let parent = self.telling.lines.parents[target];
        target - 1 == self.number && !is_edge(target, parent, self.number)
    }

    /// Whether the line rests on the next line alone, which comes from it.
    fn leads_on(&self) -> bool
        ensures { result ≡ leads_on (told_by self.now).graph self.now.number
            (dependencies_at (told_by self.now) self.now.number) }
    {
        let numbers = self
            .telling
            .shown
            .explanation
            .evidence
            .dependencies(self.number);
        numbers.len() == 1 && self.is_next(numbers[0])
    }

    /// Whether the line that it comes from alone rests on it, and it on the next line alone, which
    /// comes from it.
    fn is_link(&self) -> bool
        ensures { result ≡ is_link (told_by self.now) self.now.number }
    {
        let lines = &self.telling.lines;
        let is_cut = self.telling.is_cut(self.number);
        let has_one_caller = lines.lasts[self.number] == lines.parents[self.number];
        !is_cut && has_one_caller && self.leads_on()
    }

    /// Whether the state stays where the line is come to from its parent.
    fn stays(&self, parent: &Caller) -> Result<bool, AllocError>
        requires { IsParent parent.now self.now }
        ensures { IfOk result (λ stays. stays ≡ stays_at (told_by self.now) self.now.number) }
    {
        let instance = self.instance();
        let call = parent.call_to(&instance)?;
        Ok(is_staying(self.telling.shown.vocabulary, call))
    }

    /// Whether the line, which isn't the first one, only passes on.
    fn is_left_out(&self, parent: &Caller) -> Result<bool, AllocError>
        requires later { 0 < self.now.number }
        requires parent { IsParent parent.now self.now }
        ensures { IfOk result
            (λ passes. passes ≡ is_left_out (told_by self.now) self.now.number) }
    {
        if !self.is_link() {
            return Ok(false);
        }
        self.stays(parent)
    }

    /// How the line is come to, where it is known of the line before.
    pub(crate) fn arrival(&self, last: Arrival, parent: &Caller) -> Result<Arrival, AllocError>
        requires parent { 0 < self.now.number → IsParent parent.now self.now }
        requires last { 0 < self.now.number
            → IsArrival (told_by self.now) (self.now.number - 1) last }
        ensures { IfOk result
            (λ arrival. IsArrival (told_by self.now) self.now.number arrival) }
    {
        if self.number == 0 {
            return Ok(Arrival {
                origin: 0,
                follows: false,
                passes: false,
            });
        }
        let passes = self.is_left_out(parent)?;
        if last.passes {
            return Ok(Arrival {
                origin: last.origin,
                follows: last.follows,
                passes,
            });
        }
        let origin = self.telling.lines.parents[self.number];
        Ok(Arrival {
            origin,
            follows: origin == self.number - 1,
            passes,
        })
    }
}
