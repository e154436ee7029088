//! Reads names with arguments.

ghost use Rattle.std.specs.Prelude.{map};
ghost use Rattle.pb_text_tree.specs.Form.{instance_form};
ghost use Rattle.pb_text_terms.specs.Readers.{ReadsSome};
ghost use Rattle.pb_text_terms.specs.Reading as reading;
ghost use Rattle.pb_text_terms.specs.Reading.{argument_pair};

use crate::level::Level;
use crate::term::term_at;
use crate::variable::name;
use pb_text_lexer::fault::{ReadingError, ReadingRule};
use pb_text_lexer::input::Input;
use pb_text_lexer::kind::{Kind, same_kind};
use pb_text_tree::{Argument, Instance};
use std::alloc::Global;

/// Terms with commas between them, each with the place of its first token.
#[cycle(terms)]
#[inline(never)]
pub fn argument_list(
    input: &mut Input<'_>,
    alloc: Global,
    depth: u32,
) -> Result<Vec<Argument>, ReadingError>
    ensures { ReadsSome (λ v. map argument_pair v.items)
        (reading.argument_list (reading.term depth)) input.old result input.new }
{
    let mut arguments = Vec::with_capacity(alloc, 1)?;
    'arguments: loop {
        let place = input.place();
        let term = term_at(input, alloc, depth, Level::Implication)?;
        arguments.push(Argument { place, term })?;
        if !same_kind(input.kind(), Kind::Comma) {
            return Ok(arguments);
        }
        input.take();
    }
}

/// A name, alone or with arguments, in which so many levels may open. Behind the arguments no
/// bracket may open.
#[cycle(terms)]
pub fn instance(input: &mut Input<'_>, alloc: Global, depth: u32) -> Result<Instance, ReadingError>
    ensures { ReadsSome instance_form (reading.instance depth) input.old result input.new }
{
    let name = name(input, alloc)?;
    if !same_kind(input.kind(), Kind::Open) {
        let arguments = Vec::new(alloc);
        return Ok(Instance { name, arguments });
    }
    input.enter(depth)?;
    let arguments = argument_list(input, alloc, depth - 1)?;
    input.expect(Kind::Close)?;
    if same_kind(input.kind(), Kind::Open) {
        return Err(ReadingError::Refused(input.refuse(ReadingRule::Unexpected)));
    }
    Ok(Instance { name, arguments })
}
