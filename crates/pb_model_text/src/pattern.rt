//! Makes the formulas that words stand for. What a word inserts stands at its place.

ghost use Rattle.std.specs.Prelude.{◌≡◌, map, codes, IfOk};
ghost use Rattle.pb_text_tree.specs.Form.{named};
ghost use Rattle.pb_text_lexer.specs.Steps as spec;
ghost use Rattle.pb_text_terms.specs.Readers.{MayRead};
ghost use Rattle.pb_protocol_tree.specs.Form.{formula_form, step_set_form};
ghost use Rattle.pb_protocol_tree.specs.Links.{link_forms};
ghost use Rattle.pb_model_text.specs.Links.{processes_form};
ghost use Rattle.pb_model_text.specs.Reading as reading;
ghost use Rattle.pb_model_text.specs.Words as words;

use crate::atom::unless_going_on;
use crate::modality::modal_node;
use crate::name_ref::NameRef;
use crate::node::{connected, joined};
use crate::processes::Processes;
use crate::word::{Infix, Prefix};
use pb_base::both;
use pb_fixpoint::Sign;
use pb_model_tree::Modality;
use pb_protocol_tree::{Formula, Link, StepSet, copy_formula, copy_step_set};
use pb_text_lexer::fault::ReadingError;
use pb_text_lexer::input::Input;
use pb_text_tree::{Connective, Name, Place};
use std::alloc::{AllocError, Global};

/// The variable of a word's fixpoint.
fn variable_at(alloc: Global, name: NameRef<'_>) -> Result<Name, AllocError>
    ensures { IfOk result (λ n. named n
        ≡ words.variable_at name.entry.place name.entry.text.now) }
{
    let place = name.place;
    let text = name.text.to_owned(alloc)?;
    Ok(Name { place, text })
}

/// `<true> true`
fn some_step(alloc: Global, place: Place) -> Result<Formula, AllocError>
    ensures { IfOk result (λ f. formula_form f ≡ words.some_step place) }
{
    let operand = Formula::Constant { place, value: true };
    modal_node(
        alloc,
        place,
        Modality::Diamond,
        StepSet::All { place },
        operand,
    )
}

/// `[true] X` or `<true> X`
fn behind_steps(alloc: Global, modality: Modality, name: NameRef<'_>) -> Result<Formula, AllocError>
    ensures { IfOk result (λ f. formula_form f
        ≡ words.behind_steps modality name.entry.place name.entry.text.now) }
{
    let place = name.place;
    let variable = variable_at(alloc, name)?;
    let operand = Formula::Variable(variable);
    modal_node(alloc, place, modality, StepSet::All { place }, operand)
}

/// A word's fixpoint.
fn fixpoint_of(
    alloc: Global,
    sign: Sign,
    name: NameRef<'_>,
    body: Formula,
) -> Result<Formula, AllocError>
    ensures { IfOk result (λ f. formula_form f
        ≡ words.fixpoint_of sign name.entry.place name.entry.text.now (formula_form body)) }
{
    let place = name.place;
    let (body, variable) = both(body, variable_at(alloc, name))?;
    let body = Box::new(alloc, body)?;
    Ok(Formula::Fixpoint {
        place,
        sign,
        variable,
        body,
    })
}

/// `<true> true && [true] X`
fn goes_on(alloc: Global, name: NameRef<'_>) -> Result<Formula, AllocError>
    ensures { IfOk result (λ f. formula_form f
        ≡ words.goes_on name.entry.place name.entry.text.now) }
{
    let place = name.place;
    let some_step = some_step(alloc, place)?;
    let (some_step, behind) = both(some_step, behind_steps(alloc, Modality::Box, name))?;
    connected(alloc, Connective::And, place, some_step, behind)
}

/// `always p`
fn always(alloc: Global, place: Place, operand: Formula) -> Result<Formula, AllocError>
    ensures { IfOk result (λ f. formula_form f ≡ words.always place (formula_form operand)) }
{
    let name = NameRef {
        place,
        text: "always",
    };
    let (operand, behind) = both(operand, behind_steps(alloc, Modality::Box, name))?;
    let body = connected(alloc, Connective::And, place, operand, behind)?;
    fixpoint_of(alloc, Sign::Nu, name, body)
}

/// `possibly p`
fn possibly(alloc: Global, place: Place, operand: Formula) -> Result<Formula, AllocError>
    ensures { IfOk result (λ f. formula_form f ≡ words.possibly place (formula_form operand)) }
{
    let name = NameRef {
        place,
        text: "possibly",
    };
    let (operand, behind) = both(operand, behind_steps(alloc, Modality::Diamond, name))?;
    let body = connected(alloc, Connective::Or, place, operand, behind)?;
    fixpoint_of(alloc, Sign::Mu, name, body)
}

/// `inevitably p`
fn inevitably(alloc: Global, place: Place, operand: Formula) -> Result<Formula, AllocError>
    ensures { IfOk result (λ f. formula_form f ≡ words.inevitably place (formula_form operand)) }
{
    let name = NameRef {
        place,
        text: "inevitably",
    };
    let (operand, later) = both(operand, goes_on(alloc, name))?;
    let body = connected(alloc, Connective::Or, place, operand, later)?;
    fixpoint_of(alloc, Sign::Mu, name, body)
}

/// `no_deadlock`
fn no_deadlock(alloc: Global, place: Place) -> Result<Formula, AllocError>
    ensures { IfOk result (λ f. formula_form f ≡ words.no_deadlock place) }
{
    let name = NameRef {
        place,
        text: "no_deadlock",
    };
    let body = goes_on(alloc, name)?;
    fixpoint_of(alloc, Sign::Nu, name, body)
}

/// `p && <true> true && [true] X`
fn while_waiting(alloc: Global, name: NameRef<'_>, first: Formula) -> Result<Formula, AllocError>
    ensures { IfOk result (λ f. formula_form f
        ≡ words.conjunction name.entry.place (formula_form first)
        (words.goes_on name.entry.place name.entry.text.now)) }
{
    let place = name.place;
    let (first, later) = both(first, goes_on(alloc, name))?;
    connected(alloc, Connective::And, place, first, later)
}

/// `p until q`
fn until(
    alloc: Global,
    place: Place,
    first: Formula,
    second: Formula,
) -> Result<Formula, AllocError>
    ensures { IfOk result (λ f. formula_form f
        ≡ words.until place (formula_form first) (formula_form second)) }
{
    let name = NameRef {
        place,
        text: "until",
    };
    let waiting = while_waiting(alloc, name, first);
    let (second, waiting) = both(second, waiting)?;
    let body = connected(alloc, Connective::Or, place, second, waiting)?;
    fixpoint_of(alloc, Sign::Mu, name, body)
}

/// `p leads_to q`
fn leads_to(
    alloc: Global,
    place: Place,
    first: Formula,
    second: Formula,
) -> Result<Formula, AllocError>
    ensures { IfOk result (λ f. formula_form f
        ≡ words.leads_to place (formula_form first) (formula_form second)) }
{
    let name = NameRef {
        place,
        text: "leads_to",
    };
    let (first, answer) = both(first, inevitably(alloc, place, second))?;
    let response = connected(alloc, Connective::Implies, place, first, answer)?;
    let (response, behind) = both(response, behind_steps(alloc, Modality::Box, name))?;
    let body = connected(alloc, Connective::And, place, behind, response)?;
    fixpoint_of(alloc, Sign::Nu, name, body)
}

/// `<A> true || [true] fair`
fn tries(alloc: Global, place: Place, steps: StepSet) -> Result<Formula, AllocError>
    ensures { IfOk result (λ f. formula_form f ≡ words.tries place (step_set_form steps)) }
{
    let name = NameRef {
        place,
        text: "fair",
    };
    let operand = Formula::Constant { place, value: true };
    let able = modal_node(alloc, place, Modality::Diamond, steps, operand)?;
    let (able, behind) = both(able, behind_steps(alloc, Modality::Box, name))?;
    connected(alloc, Connective::Or, place, able, behind)
}

/// `[A] fair`
fn behind_process(alloc: Global, place: Place, steps: StepSet) -> Result<Formula, AllocError>
    ensures { IfOk result (λ f. formula_form f
        ≡ words.behind_process place (step_set_form steps)) }
{
    let name = NameRef {
        place,
        text: "fair",
    };
    let (steps, variable) = both(steps, variable_at(alloc, name))?;
    let operand = Formula::Variable(variable);
    modal_node(alloc, place, Modality::Box, steps, operand)
}

/// `(<A> true || [true] fair) && [true] inevitably`
fn tries_on(alloc: Global, place: Place, steps: &StepSet) -> Result<Formula, AllocError>
    ensures { IfOk result (λ f. formula_form f
        ≡ words.conjunction place (words.tries place (step_set_form steps.now))
        (words.behind_steps Modality.Box place (codes "inevitably"))) }
{
    let name = NameRef {
        place,
        text: "inevitably",
    };
    let copy = copy_step_set(alloc, steps)?;
    let tries = tries(alloc, place, copy)?;
    let (tries, on) = both(tries, behind_steps(alloc, Modality::Box, name))?;
    connected(alloc, Connective::And, place, tries, on)
}

/// What `fair` says of one process besides its operand.
fn waits(alloc: Global, place: Place, steps: StepSet) -> Result<Formula, AllocError>
    ensures { IfOk result (λ f. formula_form f ≡ words.waits place (step_set_form steps)) }
{
    let on = tries_on(alloc, place, &steps);
    let (steps, on) = both(steps, on)?;
    let (on, behind) = both(on, behind_process(alloc, place, steps))?;
    let on = connected(alloc, Connective::And, place, behind, on)?;
    let (on, some_step) = both(on, some_step(alloc, place))?;
    connected(alloc, Connective::And, place, some_step, on)
}

/// What `fair` says of one process.
fn unfair_to(
    alloc: Global,
    place: Place,
    operand: Formula,
    steps: StepSet,
) -> Result<Formula, AllocError>
    ensures { IfOk result (λ f. formula_form f
        ≡ words.unfair_to place (formula_form operand) (step_set_form steps)) }
{
    let name = NameRef {
        place,
        text: "inevitably",
    };
    let (operand, waits) = both(operand, waits(alloc, place, steps))?;
    let body = connected(alloc, Connective::Or, place, operand, waits)?;
    fixpoint_of(alloc, Sign::Nu, name, body)
}

/// What `fair` says of all processes but the first.
fn unfair_to_others(
    alloc: Global,
    place: Place,
    operand: &Formula,
    others: Vec<StepSet>,
) -> Result<Vec<Link>, AllocError>
    ensures { IfOk result (λ links. link_forms links.items
        ≡ words.unfair_to_others place (formula_form operand.now)
        (map step_set_form others.items)) }
{
    let mut links = Vec::with_capacity(alloc, others.len())?;
    'others: for steps in others {
        let (steps, copy) = both(steps, copy_formula(alloc, operand))?;
        let operand = unfair_to(alloc, place, copy, steps)?;
        links.push(Link { place, operand })?;
    }
    Ok(links)
}

/// What `fair` stands for, with its sets and its operand.
#[inline(never)]
pub fn fair(
    alloc: Global,
    place: Place,
    processes: Processes,
    operand: Formula,
) -> Result<Formula, AllocError>
    ensures { IfOk result (λ f. formula_form f ≡ words.fair place
        (processes_form processes).0 (processes_form processes).1 (formula_form operand)) }
{
    let name = NameRef {
        place,
        text: "fair",
    };
    let Processes { first, others } = processes;
    let Ok(links) = unfair_to_others(alloc, place, &operand, others) else {
        drop(first);
        drop(operand);
        return Err(AllocError);
    };
    let first = unfair_to(alloc, place, operand, first)?;
    let body = joined(alloc, Connective::Or, first, links)?;
    fixpoint_of(alloc, Sign::Mu, name, body)
}

/// What a word before an operand stands for.
pub fn prefixed(
    alloc: Global,
    word: Prefix,
    place: Place,
    operand: Formula,
) -> Result<Formula, AllocError>
    ensures { IfOk result (λ f. formula_form f
        ≡ words.prefixed word place (formula_form operand)) }
{
    match word {
        Prefix::Always => always(alloc, place, operand),
        Prefix::Possibly => possibly(alloc, place, operand),
        Prefix::Inevitably => inevitably(alloc, place, operand),
    }
}

/// What a word between two operands stands for.
pub fn infixed(
    alloc: Global,
    word: Infix,
    place: Place,
    first: Formula,
    second: Formula,
) -> Result<Formula, AllocError>
    ensures { IfOk result (λ f. formula_form f
        ≡ words.infixed word place (formula_form first) (formula_form second)) }
{
    match word {
        Infix::Until => until(alloc, place, first, second),
        Infix::LeadsTo => leads_to(alloc, place, first, second),
    }
}

/// `no_deadlock`, which is read, and behind which data doesn't go on.
#[inline(never)]
pub fn constant_word(
    input: &mut Input<'_>,
    alloc: Global,
    place: Place,
) -> Result<Formula, ReadingError>
    ensures { MayRead formula_form (spec.unless_next reading.goes_on
        (spec.pure (words.no_deadlock place))) input.old result input.new }
{
    unless_going_on(input)?;
    Ok(no_deadlock(alloc, place)?)
}
