//! Whether a typed formula makes the call that is looked for.

ghost use Rattle.std.specs.Prelude.{◌≡◌};
ghost use Rattle.pb_text_tree.specs.declared.operator.Quantifier.TheVariants.{Exists};
ghost use Rattle.pb_sorts.specs.Instance.{instance_of};
ghost use Rattle.pb_typing_tree.specs.Calls.{call_places};
ghost use Rattle.pb_typing_tree.specs.View.{formula_view, formula_views, nested};
ghost use Rattle.pb_typing_values.specs.Slots.{slots_of};
ghost use Rattle.pb_typing_calls.specs.Calls.{decides};
ghost use Rattle.pb_typing_calls.specs.Evaluation.{Evaluates};
ghost use Rattle.pb_typing_calls.specs.Made.{is_deciding, made, rest_decides};
ghost use Rattle.pb_typing_calls.specs.Sought.{FitsValues, FitValues, chain_makes, is_made};

use crate::calls::{has_call_at, is_test, same_place};
use crate::loops::Loops;
use crate::named::have_values;
use crate::side::Side;
use crate::sought::Sought;
use pb_text_tree::Connective;
use pb_typing_tree::Formula;
use pb_typing_values::formula_truth;

/// Whether an operand of this truth decides what it is connected to.
pub(crate) fn decides(connective: Connective, side: Side, holds: bool) -> bool
    ensures { result ≡ decides connective side holds }
{
    match (connective, side) {
        (Connective::And, _) | (Connective::Implies, Side::Left) => !holds,
        (Connective::Or, _) | (Connective::Implies, Side::Right) => holds,
    }
}

/// Whether an operand is a test that decides what it is connected to.
fn is_deciding(
    connective: Connective,
    side: Side,
    operand: &Formula,
    slots: &mut [i64],
    sought: &Sought<'_>,
) -> bool
    requires { FitsValues sought.now slots.old (formula_view operand.now) }
    ensures { Evaluates sought.now.environment.layout.now (λ spec. is_deciding spec
        (slots_of slots.old) connective side (formula_view operand.now))
        slots.old slots.new result }
{
    if !is_test(operand) {
        return false;
    }
    let holds = formula_truth(operand, slots, &sought.environment);
    decides(connective, side, holds)
}

/// Whether the operands behind another are one test that decides.
fn rest_decides(
    connective: Connective,
    rest: &[Formula],
    slots: &mut [i64],
    sought: &Sought<'_>,
) -> bool
    requires { FitValues sought.now slots.old rest.now }
    ensures { Evaluates sought.now.environment.layout.now (λ spec. rest_decides spec
        (slots_of slots.old) connective (formula_views rest.now)) slots.old slots.new result }
{
    if rest.len() != 1 {
        return false;
    }
    is_deciding(connective, Side::Right, &rest[0], slots, sought)
}

/// Whether a formula makes the call that is looked for. The quantifiers' slots must hold 0, and do
/// again afterwards.
#[cycle(made)]
pub(crate) fn makes_call(formula: &Formula, slots: &mut [i64], sought: &Sought<'_>) -> bool
    requires { FitsValues sought.now slots.old (formula_view formula.now) }
    ensures { Evaluates sought.now.environment.layout.now (λ spec. is_made spec sought.now
        (slots_of slots.old) formula.now) slots.old slots.new result }
{
    match formula {
        Formula::Test(_) => false,
        Formula::Negation(operand) => makes_call(operand, slots, sought),
        Formula::Chain {
            connective,
            first,
            links,
        } => chain_makes_call(*connective, first, links, slots, sought),
        Formula::Quantified {
            slot,
            carriers,
            body,
            ..
        } => {
            if !has_call_at(body, sought.place) {
                return false;
            }
            let loops = Loops {
                slot: *slot,
                carriers,
            };
            makes_call_for(&loops, body, slots, sought)
        }
        Formula::Call {
            place,
            equation,
            arguments,
        } => {
            same_place(*place, sought.place)
                && (*equation == usize::from(sought.called.equation)
                    && have_values(arguments, slots, sought.called.values.as_slice()))
        }
    }
}

/// Whether a chain makes the call: its first operand, or one of those linked to it.
#[cycle(made)]
fn chain_makes_call(
    connective: Connective,
    first: &Formula,
    links: &[Formula],
    slots: &mut [i64],
    sought: &Sought<'_>,
) -> bool
    requires first { FitsValues sought.now slots.old (formula_view first.now) }
    requires links { FitValues sought.now slots.old links.now }
    ensures { Evaluates sought.now.environment.layout.now (λ spec. chain_makes spec sought.now
        (slots_of slots.old) connective first.now links.now) slots.old slots.new result }
{
    let mut operand = first;
    for k in 0..links.len() {
        if rest_decides(connective, &links[k..], slots, sought) {
            return false;
        }
        if makes_call(operand, slots, sought) {
            return true;
        }
        if is_deciding(connective, Side::Left, operand, slots, sought) {
            return false;
        }
        operand = &links[k];
    }
    makes_call(operand, slots, sought)
}

/// Whether a formula makes the call for some values of a quantifier's slots.
#[cycle(made)]
fn makes_call_for(loops: &Loops<'_>, body: &Formula, slots: &mut [i64], sought: &Sought<'_>) -> bool
    requires { FitsValues sought.now slots.old
        (nested Exists loops.now.slot loops.now.carriers.now (formula_view body.now)) }
    ensures { Evaluates sought.now.environment.layout.now (λ spec. made spec
        (instance_of sought.now.called.now) sought.now.place (slots_of slots.old)
        (nested Exists loops.now.slot loops.now.carriers.now (formula_view body.now))
        (call_places body.now)) slots.old slots.new result }
{
    if loops.carriers.is_empty() {
        return makes_call(body, slots, sought);
    }
    loops.start(slots);
    'tuples: loop {
        if makes_call(body, slots, sought) {
            loops.clear(slots);
            return true;
        }
        if !loops.advance(slots) {
            loops.clear(slots);
            return false;
        }
    }
}
