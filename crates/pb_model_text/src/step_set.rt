//! Reads sets of steps, by recursive descent. Sets with `||` between them are read by a loop, so
//! that the recursion is as deep as brackets and `!` nest.

ghost use Rattle.std.specs.Prelude.{◌≡◌, ◌≤◌, length, IfOk, OnOk};
ghost use Rattle.pb_text_tree.specs.Form.{chained};
ghost use Rattle.pb_protocol_tree.specs.Form.{StepSetForm, step_set_form};
ghost use Rattle.pb_text_lexer.specs.Grammar.{State};
ghost use Rattle.pb_text_lexer.specs.Steps as spec;
ghost use Rattle.pb_text_lexer.specs.Steps.{Gives};
ghost use Rattle.pb_text_terms.specs.Readers.{HasRead, ReadsSome};
ghost use Rattle.pb_protocol_tree.specs.Links.{step_set_links};
ghost use Rattle.pb_model_text.specs.Reading as reading;

use crate::instances::step_instances;
use pb_base::both;
use pb_protocol_tree::{StepSet, StepSetLink};
use pb_text_formulas::next::unless;
use pb_text_lexer::fault::{ReadingError, ReadingRule};
use pb_text_lexer::input::Input;
use pb_text_lexer::kind::{Kind, same_kind};
use pb_text_terms::term::instance;
use std::alloc::{AllocError, Global};

/// The node of sets with `||` between them, or the first where there is no other.
fn joined(alloc: Global, first: StepSet, links: Vec<StepSetLink>) -> Result<StepSet, AllocError>
    ensures { IfOk result (λ a. step_set_form a ≡ chained StepSetForm.union (step_set_form first)
        (step_set_links links.items)) }
{
    if links.is_empty() {
        return Ok(first);
    }
    let first = Box::new(alloc, first)?;
    Ok(StepSet::Union { first, links })
}

/// Sets in brackets.
#[cycle(step_sets)]
#[inline(never)]
#[tactic(auto, unfolding(crate::specs::Reading::set))]
fn bracketed(input: &mut Input<'_>, alloc: Global, depth: u32) -> Result<StepSet, ReadingError>
    requires { spec.kind input.old ≡ Kind.Open }
    ensures { ReadsSome step_set_form (reading.set depth) input.old result input.new }
{
    input.enter(depth)?;
    let inner = step_set(input, alloc, depth - 1)?;
    let (inner, _) = both(inner, input.expect(Kind::Close))?;
    let (inner, _) = both(inner, unless(input, Kind::Open))?;
    Ok(inner)
}

/// All steps, the step of a name for all values or for some, a complement, or sets in brackets, in
/// which so many levels may open.
#[cycle(step_sets)]
#[tactic(auto, unfolding(crate::specs::Reading::set))]
fn set(input: &mut Input<'_>, alloc: Global, depth: u32) -> Result<StepSet, ReadingError>
    ensures { ReadsSome step_set_form (reading.set depth) input.old result input.new }
{
    match input.kind() {
        Kind::True => {
            let place = input.take().place;
            unless(input, Kind::Open)?;
            Ok(StepSet::All { place })
        }
        Kind::Name => step_instances(input, alloc, depth),
        Kind::Not => {
            let place = input.enter(depth)?.place;
            let operand = set(input, alloc, depth - 1)?;
            let operand = Box::new(alloc, operand)?;
            Ok(StepSet::Complement { place, operand })
        }
        Kind::Open => bracketed(input, alloc, depth),
        _ => Err(ReadingError::Refused(input.refuse(ReadingRule::Unexpected))),
    }
}

/// The sets behind a first one, each behind `||`.
#[cycle(step_sets)]
fn links_behind(
    input: &mut Input<'_>,
    alloc: Global,
    depth: u32,
) -> Result<Vec<StepSetLink>, ReadingError>
    ensures reads { (s : State) (x : StepSetForm) → HasRead (reading.set depth) x input.old s
        → Gives (λ v. chained StepSetForm.union x (step_set_links v.items))
        (reading.step_set depth s) result input.new }
    ensures fewer { OnOk result (length input.new.tokens ≤ length input.old.tokens) }
{
    let mut links = Vec::new(alloc);
    'links: while same_kind(input.kind(), Kind::Or) {
        let place = input.take_operator()?.place;
        let operand = set(input, alloc, depth)?;
        links.push(StepSetLink { place, operand })?;
    }
    Ok(links)
}

/// Sets of steps with `||` between them, in which so many levels may open.
#[cycle(step_sets)]
pub fn step_set(input: &mut Input<'_>, alloc: Global, depth: u32) -> Result<StepSet, ReadingError>
    ensures { ReadsSome step_set_form (reading.step_set depth) input.old result input.new }
{
    let first = set(input, alloc, depth)?;
    let links = links_behind(input, alloc, depth);
    let (start, links) = both(first, links)?;
    Ok(joined(alloc, start, links)?)
}
