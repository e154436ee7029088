//! The calls that a typed formula makes under values of its slots.

ghost use Rattle.std.specs.Prelude.{◌≡◌, ◌++◌, OnOk};
ghost use Rattle.pb_text_meaning.specs.Syntax.{Spec};
ghost use Rattle.pb_text_tree.specs.declared.operator.Quantifier.TheVariants.{Exists};
ghost use Rattle.pb_typing_tree.specs.Calls.{call_places};
ghost use Rattle.pb_typing_tree.specs.View.{formula_view, nested};
ghost use Rattle.pb_typing_values.specs.Environment.{IsLaidOut};
ghost use Rattle.pb_typing_values.specs.Slots.{slots_of};
ghost use Rattle.pb_typing_calls.specs.Evaluation.{Evaluates};
ghost use Rattle.pb_typing_calls.specs.Gathered.{FitsAt, FitAt, calls_of, chain_calls};
ghost use Rattle.pb_typing_calls.specs.Gathered.{decides_first, gathered};
ghost use Rattle.pb_typing_calls.specs.MadeCallView.{call_views};

use crate::calls::has_no_call;
use crate::chain::Chain;
use crate::loops::Loops;
use crate::made::decides;
use crate::made_call::MadeCall;
use crate::scope::{Scope, with_slots};
use crate::side::Side;
use crate::values::{argument_values, held_values};
use pb_text_tree::Connective;
use pb_typing_tree::Formula;
use pb_typing_values::formula_truth;
use std::alloc::AllocError;

/// Whether a first operand without calls decides what it is connected to.
fn decides_first(
    connective: Connective,
    operand: &Formula,
    slots: &mut [i64],
    scope: &Scope<'_>,
) -> bool
    requires { FitsAt scope.now slots.old (formula_view operand.now) }
    ensures { Evaluates scope.now.environment.layout.now (λ spec. decides_first spec
        (slots_of slots.old) connective (formula_view operand.now)) slots.old slots.new result }
{
    if !has_no_call(operand) {
        return false;
    }
    let holds = formula_truth(operand, slots, &scope.environment);
    decides(connective, Side::Left, holds)
}

/// Puts the calls that a formula makes behind others. The quantifiers' slots must hold 0, and do
/// again afterwards.
#[cycle(gathered)]
pub(crate) fn push_calls(
    formula: &Formula,
    slots: &mut [i64],
    scope: &Scope<'_>,
    calls: &mut Vec<MadeCall>,
) -> Result<(), AllocError>
    requires { FitsAt scope.now slots.old (formula_view formula.now) }
    ensures calls { (spec : Spec) → IsLaidOut spec scope.now.environment.layout.now
        → OnOk result (call_views calls.new.items ≡ call_views calls.old.items
        ++ calls_of spec scope.now (slots_of slots.old) formula.now) }
    ensures kept { OnOk result (slots.new ≡ slots.old) }
{
    match formula {
        Formula::Test(_) => Ok(()),
        Formula::Negation(operand) => push_calls(operand, slots, scope, calls),
        Formula::Chain {
            connective,
            first,
            links,
        } => {
            let chain = Chain {
                connective: *connective,
                first,
                links,
            };
            push_chain_calls(&chain, slots, scope, calls)
        }
        Formula::Quantified {
            slot,
            carriers,
            body,
            ..
        } => {
            // The tuples of a quantifier in a test need not be run through.
            if has_no_call(body) {
                return Ok(());
            }
            let loops = Loops {
                slot: *slot,
                carriers,
            };
            push_calls_for(&loops, body, slots, scope, calls)
        }
        Formula::Call {
            place,
            equation,
            arguments,
        } => {
            let made = MadeCall {
                place: *place,
                own: held_values(scope.alloc, scope.own, slots)?,
                equation: *equation,
                values: argument_values(scope.alloc, arguments, slots)?,
            };
            calls.push(made)?;
            Ok(())
        }
    }
}

/// Puts the calls that a chain makes behind others: none behind an operand that decides.
#[cycle(gathered)]
fn push_chain_calls(
    chain: &Chain<'_>,
    slots: &mut [i64],
    scope: &Scope<'_>,
    calls: &mut Vec<MadeCall>,
) -> Result<(), AllocError>
    requires first { FitsAt scope.now slots.old (formula_view chain.now.first.now) }
    requires links { FitAt scope.now slots.old chain.now.links.now }
    ensures calls { (spec : Spec) → IsLaidOut spec scope.now.environment.layout.now
        → OnOk result (call_views calls.new.items ≡ call_views calls.old.items
        ++ chain_calls spec scope.now (slots_of slots.old) chain.now.connective
        chain.now.first.now chain.now.links.now) }
    ensures kept { OnOk result (slots.new ≡ slots.old) }
{
    let mut operand = chain.first;
    for k in 0..chain.links.len() {
        push_calls(operand, slots, scope, calls)?;
        if decides_first(chain.connective, operand, slots, scope) {
            return Ok(());
        }
        operand = &chain.links[k];
    }
    push_calls(operand, slots, scope, calls)
}

/// Puts the calls that a formula makes for each tuple of a quantifier's slots behind others.
#[cycle(gathered)]
fn push_calls_for(
    loops: &Loops<'_>,
    body: &Formula,
    slots: &mut [i64],
    scope: &Scope<'_>,
    calls: &mut Vec<MadeCall>,
) -> Result<(), AllocError>
    requires { FitsAt scope.now slots.old
        (nested Exists loops.now.slot loops.now.carriers.now (formula_view body.now)) }
    ensures calls { (spec : Spec) → IsLaidOut spec scope.now.environment.layout.now
        → OnOk result (call_views calls.new.items ≡ call_views calls.old.items
        ++ gathered spec scope.now.own.now (slots_of slots.old)
        (nested Exists loops.now.slot loops.now.carriers.now (formula_view body.now))
        (call_places body.now)) }
    ensures kept { OnOk result (slots.new ≡ slots.old) }
{
    if loops.carriers.is_empty() {
        return push_calls(body, slots, scope, calls);
    }
    let end = loops.slot + loops.carriers.len();
    let own = with_slots(scope.alloc, scope.own, loops.slot, end)?;
    let inside = Scope {
        alloc: scope.alloc,
        own: &own,
        environment: scope.environment,
    };
    loops.start(slots);
    'tuples: loop {
        push_calls(body, slots, &inside, calls)?;
        if !loops.advance(slots) {
            loops.clear(slots);
            return Ok(());
        }
    }
}
