//! The truth of a typed formula over slots, under an environment.

ghost use Rattle.std.specs.Prelude.{◌≡◌, ◌<◌, length, map};
ghost use Rattle.pb_text_meaning.specs.Formula.{call_truth};
ghost use Rattle.pb_text_meaning.specs.Syntax.{Spec};
ghost use Rattle.pb_typing_tree.specs.Fits.{AllFit, FormulaFits};
ghost use Rattle.pb_typing_tree.specs.Meaning.{called_instance, truth};
ghost use Rattle.pb_typing_tree.specs.Tree as tree;
ghost use Rattle.pb_typing_tree.specs.View.{argument_view, formula_view, nested};
ghost use Rattle.pb_typing_values.specs.Environment.{IsLaidOut, environment_of};
ghost use Rattle.pb_typing_values.specs.Slots.{slots_of};

use crate::environment::Environment;
use crate::odometer::{advance, clear, deciding, start};
use crate::operation::{decided_by, is_true};
use crate::term::value;
use pb_sorts::{Carrier, Instance, Tuple};
use pb_text_tree::{Connective, Quantifier};
use pb_typing_tree::{Argument, Formula};

/// The truth of a formula over these slots (Groote and Willemse 2005). A call with a value outside
/// its parameter's carrier is false.
///
/// Each value on the way must be within 2^62 and each divisor at least 1, as type checking ensures.
/// The quantifiers' slots must hold 0, and do again afterwards. Recursion goes as deep as formulas
/// nest.
#[cycle(formulas)]
pub fn formula_truth(formula: &Formula, slots: &mut [i64], environment: &Environment<'_>) -> bool
    requires { FormulaFits (length environment.now.layout.now) (length slots.old)
        (slots_of slots.old) (formula_view formula.now) }
    ensures truth { (spec : Spec) → IsLaidOut spec environment.now.layout.now
        → result ≡ truth spec (slots_of slots.old)
        (environment_of spec environment.now.truths.now) (formula_view formula.now) }
    ensures kept { slots.new ≡ slots.old }
{
    match formula {
        Formula::Test(term) => is_true(value(term, slots)),
        Formula::Negation(operand) => !formula_truth(operand, slots, environment),
        Formula::Chain {
            connective,
            first,
            links,
        } => {
            let mut current = formula_truth(first, slots, environment);
            for link in links {
                if let Some(decided) = decided_by(*connective, current) {
                    return decided;
                }
                current = formula_truth(link, slots, environment);
            }
            current
        }
        Formula::Quantified {
            quantifier,
            slot,
            carriers,
            body,
        } => {
            let loops = Loops {
                slot: *slot,
                carriers,
            };
            quantified(*quantifier, &loops, body, slots, environment)
        }
        Formula::Call {
            equation,
            arguments,
            ..
        } => call_truth(*equation, arguments, slots, environment),
    }
}

/// The slots of a quantifier: those from `slot` on, which have these carriers.
#[derive(Clone, Copy)]
struct Loops<'a> {
    slot: usize,
    carriers: &'a [Carrier],
}

/// Whether a formula is true for all or some values of slots.
#[cycle(formulas)]
fn quantified(
    quantifier: Quantifier,
    loops: &Loops<'_>,
    body: &Formula,
    slots: &mut [i64],
    environment: &Environment<'_>,
) -> bool
    requires { FormulaFits (length environment.now.layout.now) (length slots.old)
        (slots_of slots.old)
        (nested quantifier loops.now.slot loops.now.carriers.now (formula_view body.now)) }
    ensures truth { (spec : Spec) → IsLaidOut spec environment.now.layout.now
        → result ≡ truth spec (slots_of slots.old)
        (environment_of spec environment.now.truths.now)
        (nested quantifier loops.now.slot loops.now.carriers.now (formula_view body.now)) }
    ensures kept { slots.new ≡ slots.old }
{
    let count = loops.carriers.len();
    if count == 0 {
        return formula_truth(body, slots, environment);
    }
    let end = loops.slot + count;
    start(loops.carriers, &mut slots[loops.slot..end]);
    loop {
        let holds = formula_truth(body, slots, environment);
        if holds == deciding(quantifier) {
            clear(&mut slots[loops.slot..end]);
            return holds;
        }
        if !advance(loops.carriers, &mut slots[loops.slot..end]) {
            clear(&mut slots[loops.slot..end]);
            return holds;
        }
    }
}

/// The truth of a call: false where its values are outside their carriers.
fn call_truth(
    equation: usize,
    arguments: &Vec<Argument>,
    slots: &[i64],
    environment: &Environment<'_>,
) -> bool
    requires known { equation < length environment.now.layout.now }
    requires fits { AllFit (length slots.now) (slots_of slots.now)
        (map argument_view arguments.now.items) }
    ensures { (spec : Spec) → IsLaidOut spec environment.now.layout.now
        → result ≡ call_truth spec (environment_of spec environment.now.truths.now)
        (called_instance spec (slots_of slots.now) equation
        (map argument_view arguments.now.items)) }
{
    let known = equation < environment.layout.equation_count();
    prove!(known);
    if environment.layout.carriers(equation).len() != arguments.len() {
        return false;
    }
    let mut values = Tuple::new(*arguments.allocator());
    for argument in arguments {
        values.push_reserved(value(&argument.term, slots));
    }
    let instance = Instance {
        equation: equation as u8,
        values,
    };
    match environment.layout.number(&instance) {
        Some(number) => environment.truth(number),
        None => false,
    }
}
