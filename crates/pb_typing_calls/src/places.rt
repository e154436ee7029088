//! The places of the calls in a typed text's right sides.

ghost use Rattle.std.specs.Prelude.{◌≡◌};
ghost use Rattle.pb_sorts.specs.Layout.{carriers_of};

use crate::calls::places_of_calls;
use crate::gather::push_calls;
use crate::made::makes_call;
use crate::made_call::MadeCall;
use crate::scope::Scope;
use crate::slots::slots_at;
use crate::sought::Sought;
use pb_sorts::Instance;
use pb_text_tree::Place;
use pb_typing::Typed;
use pb_typing_tree::Formula;
use pb_typing_values::Environment;
use std::alloc::{AllocError, Global};

/// The places of the calls in a typed text's right sides.
#[derive(Drop)]
pub struct CallPlaces<'a> {
    typed: &'a Typed,
}

impl<'a> CallPlaces<'a> {
    ghost use Rattle.std.specs.Prelude.{true, length, IfOk};
    ghost use Rattle.pb_text_tree.specs.Form.{spec_form};
    ghost use Rattle.pb_text_meaning.specs.Syntax.{Spec};
    ghost use Rattle.pb_sorts.specs.Instance.{instance_of, is_instance};
    ghost use Rattle.pb_typing_tree.specs.Calls.{call_places};
    ghost use Rattle.pb_typing_tree.specs.Fits.{FormulaFits};
    ghost use Rattle.pb_typing_tree.specs.View.{formula_view};
    ghost use Rattle.pb_typing_values.specs.Environment.{IsLaidOut};
    ghost use Rattle.pb_typing_values.specs.Slots.{slots_of};
    ghost use Rattle.pb_typing_calls.specs.Calls.{call_place};
    ghost use Rattle.pb_typing_calls.specs.Made.{first_made};
    ghost use Rattle.pb_typing_calls.specs.MadeCalls.{calls_at};
    ghost use Rattle.pb_typing_calls.specs.MadeCallView.{call_views};
    ghost use Rattle.pb_typing_calls.specs.View.{layout_of, said_by};

    /// The places of a typed text's calls.
    pub fn new(typed: &'a Typed) -> CallPlaces<'a>
        ensures text { said_by result ≡ spec_form typed.now.spec }
        ensures layout { layout_of result ≡ typed.now.layout }
    {
        CallPlaces { typed }
    }

    /// The place of the first call by which the caller's right side names the called instance;
    /// none where there is no such call.
    ///
    /// First is what is written first. Beside a test that decides, as a false one before or behind
    /// `&&`, no call is made; a quantifier's body is taken for each value of its variables.
    ///
    /// # Errors
    /// Memory was refused.
    pub fn place(
        &self,
        alloc: Global,
        caller: &Instance,
        called: &Instance,
    ) -> Result<Option<Place>, AllocError>
        requires { is_instance (carriers_of (layout_of self.now)) (instance_of caller.now) ≡ true }
        ensures { IfOk result (λ place. place
            ≡ call_place (said_by self.now) (instance_of caller.now) (instance_of called.now)) }
    {
        let equations = &self.typed.equations;
        let Some(equation) = equations.get(usize::from(caller.equation)) else {
            return Ok(None);
        };
        if usize::from(called.equation) >= equations.len() {
            return Ok(None);
        }
        let mut slots = slots_at(alloc, caller.values.as_slice(), &equation.loops)?;
        self.first_call(alloc, &equation.right, &mut slots, called)
    }

    /// The place of the first call by which a right side, over these slots, names an instance.
    fn first_call<'b>(
        &'b self,
        alloc: Global,
        right: &Formula,
        slots: &mut [i64],
        called: &'b Instance,
    ) -> Result<Option<Place>, AllocError>
        requires { FormulaFits (length (layout_of self.now)) (length slots.old)
            (slots_of slots.old) (formula_view right.now) }
        ensures { (spec : Spec) → IsLaidOut spec (layout_of self.now) → IfOk result (λ place. place
            ≡ first_made spec (instance_of called.now) (slots_of slots.old)
            (formula_view right.now) (call_places right.now)) }
    {
        let calls = places_of_calls(alloc, right)?;
        for place in &calls {
            let sought = self.sought(*place, called);
            if makes_call(right, slots, &sought) {
                return Ok(Some(*place));
            }
        }
        Ok(None)
    }

    /// The calls that the caller's right side makes, in the order in which they are written.
    ///
    /// Behind a first operand that has no call and decides, as a false one before `&&`, no call is
    /// made; a quantifier's body is taken for each value of its variables, the last one fastest.
    ///
    /// # Errors
    /// Memory was refused.
    pub fn calls(&self, alloc: Global, caller: &Instance) -> Result<Vec<MadeCall>, AllocError>
        requires { is_instance (carriers_of (layout_of self.now)) (instance_of caller.now) ≡ true }
        ensures { IfOk result (λ calls. call_views calls.items
            ≡ calls_at (said_by self.now) (instance_of caller.now)) }
    {
        let mut calls = Vec::new(alloc);
        let Some(equation) = self.typed.equations.get(usize::from(caller.equation)) else {
            return Ok(calls);
        };
        let mut slots = slots_at(alloc, caller.values.as_slice(), &equation.loops)?;
        let scope = Scope {
            alloc,
            own: &[],
            environment: Environment {
                layout: &self.typed.layout,
                truths: &[],
            },
        };
        push_calls(&equation.right, &mut slots, &scope, &mut calls)?;
        Ok(calls)
    }

    /// The call at a place by which an instance is named.
    fn sought<'b>(&'b self, place: Place, called: &'b Instance) -> Sought<'b>
        ensures place { result.place ≡ place }
        ensures called { result.called.now ≡ called.now }
        ensures layout { result.environment.layout.now ≡ layout_of self.now }
    {
        Sought {
            place,
            called,
            environment: Environment {
                layout: &self.typed.layout,
                truths: &[],
            },
        }
    }
}
