//! Reads the sets of steps behind `fair`, each of which is a process.

ghost use Rattle.std.specs.Prelude.{◌<◌, map, OnOk};
ghost use Rattle.pb_text_terms.specs.Readers.{MayRead, ReadsSome};
ghost use Rattle.pb_protocol_tree.specs.Form.{step_set_form};
ghost use Rattle.pb_model_text.specs.Grammar as grammar;
ghost use Rattle.pb_model_text.specs.Links.{processes_form};
ghost use Rattle.pb_model_text.specs.Reading as reading;
ghost use Rattle.pb_model_text.specs.Words as words;

use crate::atom::unexpected_name;
use crate::step_set::step_set;
use crate::word::is_fairly;
use pb_base::both;
use pb_protocol_tree::StepSet;
use pb_text_lexer::fault::{ReadingError, ReadingRule};
use pb_text_lexer::input::Input;
use pb_text_lexer::kind::{Kind, same_kind};
use pb_text_tree::Place;
use std::alloc::Global;

/// So many sets may follow the first, since the operand of `fair` is said once for each.
const MOST_OTHERS: usize = 7;

/// The sets of steps of one process or more.
#[derive(Drop)]
pub struct Processes {
    pub first: StepSet,
    pub others: Vec<StepSet>,
}

/// Sets behind commas, in which so many levels may open.
fn other_sets(
    input: &mut Input<'_>,
    alloc: Global,
    depth: u32,
) -> Result<Vec<StepSet>, ReadingError>
    ensures { MayRead (λ v. map step_set_form v.items)
        (reading.other_sets grammar.most_others (reading.step_set depth))
        input.old result input.new }
{
    let mut others = Vec::new(alloc);
    'others: while same_kind(input.kind(), Kind::Comma) {
        if others.len() == MOST_OTHERS {
            return Err(ReadingError::Refused(input.refuse(ReadingRule::Unexpected)));
        }
        input.take();
        let set = step_set(input, alloc, depth)?;
        others.push(set)?;
    }
    Ok(others)
}

/// `inevitably`, which stands at this place.
fn fairly(input: &mut Input<'_>) -> Result<Place, ReadingError>
    ensures { ReadsSome (λ place. (tt, place)) (reading.take_word words.fairly_of)
        input.old result input.new }
{
    let (place, text) = input.expect_name()?;
    if !is_fairly(text.as_bytes()) {
        return Err(ReadingError::Refused(unexpected_name(place)));
    }
    Ok(place)
}

/// Sets behind the bracket, the bracket that closes, and `inevitably`.
fn processes_behind(
    input: &mut Input<'_>,
    alloc: Global,
    depth: u32,
) -> Result<Processes, ReadingError>
    ensures { ReadsSome processes_form (reading.processes_behind (reading.step_set depth))
        input.old result input.new }
{
    let first = step_set(input, alloc, depth)?;
    let (first, others) = both(first, other_sets(input, alloc, depth))?;
    let (first, _) = both(first, input.expect(Kind::Close))?;
    let (first, _) = both(first, fairly(input))?;
    Ok(Processes { first, others })
}

/// Sets in brackets, which open a level, and `inevitably`.
#[inline(never)]
pub fn process_sets(
    input: &mut Input<'_>,
    alloc: Global,
    depth: u32,
) -> Result<Processes, ReadingError>
    ensures reads { ReadsSome processes_form (reading.processes depth) input.old result input.new }
    ensures deeper { OnOk result (0 < depth) }
{
    if !same_kind(input.kind(), Kind::Open) {
        return Err(ReadingError::Refused(input.refuse(ReadingRule::Unexpected)));
    }
    input.enter(depth)?;
    processes_behind(input, alloc, depth - 1)
}
