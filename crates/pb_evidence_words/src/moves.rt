//! The move by which an instance goes over to another: by the call that names it.

ghost use Rattle.std.specs.Prelude.{◌≡◌, ◌++◌, ◌||◌, not, false, OnOk, Option, string_bytes};
ghost use Rattle.std.specs.List.{find, list_all};
ghost use Rattle.pb_text_tree.specs.declared.place.Place.{Place};
ghost use Rattle.pb_typing_calls.specs.Calls.{same_place};
ghost use Rattle.pb_typing_calls.specs.MadeCallView.{call_view, call_views};
ghost use Rattle.pb_model_words.specs.View.{vocabulary_of};
ghost use Rattle.pb_model_words.specs.Words.{move_text};
ghost use Rattle.pb_sorts.specs.Instance.{instance_of};
ghost use Rattle.pb_evidence_words.specs.Ready.{call_said};
ghost use Rattle.pb_evidence_words.specs.WhyText.{chosen_call, is_call_at, is_call_of};
ghost use Rattle.pb_evidence_words.specs.WhyText.{is_same_instance};

use crate::caller::Caller;
use crate::telling::Telling;
use pb_model_words::{Move, push_changes, push_move};
use pb_sorts::Instance;
use pb_text_tree::Place;
use pb_typing_calls::MadeCall;
use std::alloc::AllocError;

fn same_place(left: Place, right: Place) -> bool
    ensures { result ≡ same_place left right }
{
    left.line == right.line && left.column == right.column
}

/// Whether a call names an instance.
fn names(call: &MadeCall, called: &Instance) -> bool
    ensures { result ≡ is_same_instance (call_view call.now).instance (instance_of called.now) }
{
    call.equation == usize::from(called.equation)
        && call.values.as_slice() == called.values.as_slice()
}

/// Whether a call at a place names an instance.
fn names_at(place: Place, call: &MadeCall, called: &Instance) -> bool
    ensures { result ≡ is_call_at place (instance_of called.now) (call_view call.now) }
{
    same_place(call.place, place) && names(call, called)
}

/// The first call that names an instance.
fn first_call<'a>(calls: &'a [MadeCall], called: &Instance) -> Option<&'a MadeCall>
    ensures { call_said result
        ≡ find (is_call_of (instance_of called.now)) (call_views calls.now) }
{
    for call in calls {
        if names(call, called) {
            return Some(call);
        }
    }
    None
}

/// The first call at a place that names an instance.
fn first_call_at<'a>(place: Place, calls: &'a [MadeCall], called: &Instance) -> Option<&'a MadeCall>
    ensures { call_said result
        ≡ find (is_call_at place (instance_of called.now)) (call_views calls.now) }
{
    for call in calls {
        if names_at(place, call, called) {
            return Some(call);
        }
    }
    None
}

/// Whether a call names an instance at no other place than this one.
fn is_nowhere_else(place: Place, call: &MadeCall, called: &Instance) -> bool
    ensures { result ≡ (not (is_call_of (instance_of called.now) (call_view call.now))
        || same_place call.now.place place) }
{
    !names(call, called) || same_place(call.place, place)
}

/// Whether no call names an instance at another place than this one.
fn are_nowhere_else(place: Place, calls: &[MadeCall], called: &Instance) -> bool
    ensures { result ≡ list_all (λ c. not (is_call_of (instance_of called.now) c)
        || same_place c.place place) (call_views calls.now) }
{
    for call in calls {
        if !is_nowhere_else(place, call, called) {
            return false;
        }
    }
    true
}

/// Of the calls that name an instance the one that is told, where this is its place.
fn chosen<'a>(
    calls: &'a [MadeCall],
    place: Option<Place>,
    called: &Instance,
) -> Option<&'a MadeCall>
    ensures { call_said result
        ≡ chosen_call place (call_views calls.now) (instance_of called.now) }
{
    let Some(place) = place else {
        return first_call(calls, called);
    };
    match first_call_at(place, calls, called) {
        Some(call) => Some(call),
        None => first_call(calls, called),
    }
}

/// Whether calls that name an instance stand at several places, so that one is to be chosen.
fn have_places(calls: &[MadeCall], called: &Instance) -> bool
    ensures { result ≡ false → (place : Option Place)
        → chosen_call place (call_views calls.now) (instance_of called.now)
        ≡ find (is_call_of (instance_of called.now)) (call_views calls.now) }
{
    match first_call(calls, called) {
        None => false,
        Some(first) => !are_nowhere_else(first.place, calls, called),
    }
}

impl Telling<'_> {
    /// Puts the move that a call makes behind a text.
    pub(crate) fn push_call(
        &self,
        text: &mut String,
        before: &Instance,
        call: &MadeCall,
    ) -> Result<(), AllocError>
        ensures { OnOk result (string_bytes text.new ≡ string_bytes text.old
            ++ move_text (vocabulary_of self.now.shown.now.vocabulary.now) call.now.place
            call.now.own.items before.now.values.items call.now.values.items) }
    {
        let made = Move {
            place: call.place,
            own: &call.own,
            before: before.values.as_slice(),
            after: &call.values,
        };
        push_move(self.alloc, text, self.shown.vocabulary, &made)
    }
}

impl Caller<'_> {
    ghost use Rattle.std.specs.Prelude.{IfOk};
    ghost use Rattle.pb_evidence_words.specs.Callers.{told_by};
    ghost use Rattle.pb_evidence_words.specs.WhyText.{call_between, move_between};

    /// The place of the call by which the instance names another one, where it has to be known.
    fn told_place(&self, called: &Instance) -> Result<Option<Place>, AllocError>
        ensures { IfOk result (λ place. ∥ chosen_call place (call_views self.now.calls.items)
            (instance_of called.now) ≡ call_between (told_by self.now.line)
            (instance_of self.now.instance) (instance_of called.now) ∥₁) }
    {
        if !have_places(&self.calls, called) {
            return Ok(None);
        }
        let telling = self.line.telling;
        telling.calls.place(telling.alloc, &self.instance, called)
    }

    /// The call by which the instance names another one, as it is told.
    pub(crate) fn call_to(&self, called: &Instance) -> Result<Option<&MadeCall>, AllocError>
        ensures { IfOk result (λ call. ∥ call_said call ≡ call_between (told_by self.now.line)
            (instance_of self.now.instance) (instance_of called.now) ∥₁) }
    {
        let place = self.told_place(called)?;
        Ok(chosen(&self.calls, place, called))
    }

    /// Puts the move to an instance behind a text.
    pub(crate) fn push_move_to(
        &self,
        text: &mut String,
        called: &Instance,
    ) -> Result<(), AllocError>
        ensures { OnOk result (string_bytes text.new ≡ string_bytes text.old
            ++ move_between (told_by self.now.line) (instance_of self.now.instance)
            (instance_of called.now)) }
    {
        let telling = self.line.telling;
        match self.call_to(called)? {
            Some(call) => telling.push_call(text, &self.instance, call),
            None => {
                text.push_str("by no step")?;
                let before = self.instance.values.as_slice();
                let after = called.values.as_slice();
                push_changes(telling.alloc, text, telling.shown.vocabulary, before, after)
            }
        }
    }
}
