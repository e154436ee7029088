//! Reads constants, with which the text of a model may begin.

ghost use Rattle.std.specs.Prelude.{◌≡◌, map, is_some};
ghost use Rattle.pb_text_lexer.specs.Steps as spec;
ghost use Rattle.pb_text_lexer.specs.Steps.{Gives};
ghost use Rattle.pb_text_terms.specs.Readers.{ReadsSome};
ghost use Rattle.pb_text.specs.Parsing.{depth_limit};
ghost use Rattle.pb_protocol_tree.specs.Form.{constant_form};
ghost use Rattle.pb_model_text.specs.Models as grammar;
ghost use Rattle.pb_model_text.specs.ModelReading as reading;
ghost use Rattle.pb_model_text.specs.Reading as words;

use crate::atom::unexpected_name;
use pb_base::{MAX_DEPTH, both};
use pb_protocol_tree::Constant;
use pb_text_formulas::next::unless;
use pb_text_lexer::fault::ReadingError;
use pb_text_lexer::input::Input;
use pb_text_lexer::kind::{Kind, same_kind};
use pb_text_terms::term::term;
use pb_text_terms::variable::name;
use pb_text_tree::{Argument, Place};
use std::alloc::Global;

/// Whether the bytes are the name that begins constants.
fn is_const(text: &[u8]) -> bool
    ensures { result ≡ is_some (grammar.const_of text.now) }
{
    text == b"const".as_slice()
}

/// The name that begins constants; another is refused at its place.
fn const_word(input: &mut Input<'_>) -> Result<Place, ReadingError>
    ensures { ReadsSome (λ place. (tt, place)) (words.take_word grammar.const_of)
        input.old result input.new }
{
    let (place, text) = input.expect_name()?;
    if !is_const(text.as_bytes()) {
        return Err(ReadingError::Refused(unexpected_name(place)));
    }
    Ok(place)
}

/// A name, `=` and the data whose value it stands for.
#[tactic(auto, unfolding(crate::specs::ModelReading::constant))]
fn constant(input: &mut Input<'_>, alloc: Global) -> Result<Constant, ReadingError>
    ensures { ReadsSome constant_form (reading.constant depth_limit) input.old result input.new }
{
    let name = name(input, alloc)?;
    let (name, _) = both(name, input.expect(Kind::Is))?;
    let place = input.place();
    let (name, term) = both(name, term(input, alloc, MAX_DEPTH as u32))?;
    let value = Argument { place, term };
    Ok(Constant { name, value })
}

/// Constants with commas between them.
fn constant_list(input: &mut Input<'_>, alloc: Global) -> Result<Vec<Constant>, ReadingError>
    ensures { ReadsSome (λ v. map constant_form v.items) (reading.constant_list depth_limit)
        input.old result input.new }
{
    let mut constants = Vec::with_capacity(alloc, 1)?;
    'constants: loop {
        let constant = constant(input, alloc)?;
        constants.push(constant)?;
        if !same_kind(input.kind(), Kind::Comma) {
            return Ok(constants);
        }
        input.take();
    }
}

/// `const`, constants and `;`.
#[tactic(auto, unfolding(crate::specs::ModelReading::constant_parts))]
fn constant_parts(input: &mut Input<'_>, alloc: Global) -> Result<Vec<Constant>, ReadingError>
    requires { spec.kind input.old ≡ Kind.Name }
    ensures { ReadsSome (λ v. map constant_form v.items) (reading.constant_parts depth_limit)
        input.old result input.new }
{
    const_word(input)?;
    let constants = constant_list(input, alloc)?;
    let (constants, _) = both(constants, input.expect(Kind::Semicolon))?;
    Ok(constants)
}

/// Constants, with all the operators that they may have.
#[tactic(auto, unfolding(crate::specs::ModelReading::constant_part))]
fn constant_part(input: &mut Input<'_>, alloc: Global) -> Result<Vec<Constant>, ReadingError>
    requires { spec.kind input.old ≡ Kind.Name }
    ensures { ReadsSome (λ v. map constant_form v.items) (reading.constant_part depth_limit)
        input.old result input.new }
{
    let allowed = input.operators();
    let constants = constant_parts(input, alloc)?;
    input.allow(allowed);
    Ok(constants)
}

/// The constants of a model, if its first token is a name.
#[tactic(auto, unfolding(crate::specs::ModelReading::constants))]
pub fn constants(input: &mut Input<'_>, alloc: Global) -> Result<Vec<Constant>, ReadingError>
    ensures { Gives (λ v. map constant_form v.items)
        (reading.constants depth_limit input.old) result input.new }
{
    if !same_kind(input.kind(), Kind::Name) {
        return Ok(Vec::new(alloc));
    }
    let constants = constant_part(input, alloc)?;
    let (constants, _) = both(constants, unless(input, Kind::Name))?;
    Ok(constants)
}
