//! Reads declarations of sorts.

ghost use Rattle.std.specs.Prelude.{map};
ghost use Rattle.pb_text_tree.specs.Form.{enumerator_form, sort_form, sort_declaration_form};
ghost use Rattle.pb_text_lexer.specs.Steps.{Gives};
ghost use Rattle.pb_text_terms.specs.Readers.{ReadsSome};
ghost use Rattle.pb_text_formulas.specs.Reading as reading;

use crate::next::unless;
use pb_text_lexer::fault::{ReadingError, ReadingRule};
use pb_text_lexer::input::Input;
use pb_text_lexer::kind::{Kind, same_kind};
use pb_text_terms::variable::name;
use pb_text_tree::{Enumerator, Sort, SortDeclaration};
use std::alloc::Global;

/// A name, and perhaps a recogniser behind it.
#[tactic(auto, unfolding(crate::specs::Reading::enumerator))]
fn enumerator(input: &mut Input<'_>, alloc: Global) -> Result<Enumerator, ReadingError>
    ensures { ReadsSome enumerator_form reading.enumerator input.old result input.new }
{
    let enumerator = name(input, alloc)?;
    if !same_kind(input.kind(), Kind::Question) {
        return Ok(Enumerator {
            name: enumerator,
            recogniser: None,
        });
    }
    input.take();
    let recogniser = name(input, alloc)?;
    unless(input, Kind::Question)?;
    Ok(Enumerator {
        name: enumerator,
        recogniser: Some(recogniser),
    })
}

/// Enumerators with `|` between them.
pub fn enumerators(input: &mut Input<'_>, alloc: Global) -> Result<Vec<Enumerator>, ReadingError>
    ensures { ReadsSome (λ v. map enumerator_form v.items) reading.enumerators
        input.old result input.new }
{
    let mut enumerators = Vec::new(alloc);
    'enumerators: loop {
        let enumerator = enumerator(input, alloc)?;
        enumerators.push(enumerator)?;
        if !same_kind(input.kind(), Kind::Bar) {
            return Ok(enumerators);
        }
        input.take();
    }
}

/// What a sort is declared to be, a struct or another name, and `;`.
#[tactic(auto, unfolding(crate::specs::Reading::sort))]
fn sort(input: &mut Input<'_>, alloc: Global) -> Result<Sort, ReadingError>
    ensures { ReadsSome sort_form reading.sort input.old result input.new }
{
    match input.kind() {
        Kind::Struct => {
            input.take();
            let enumerators = enumerators(input, alloc)?;
            input.expect(Kind::Semicolon)?;
            Ok(Sort::Struct(enumerators))
        }
        Kind::Name => {
            let target = name(input, alloc)?;
            input.expect(Kind::Semicolon)?;
            Ok(Sort::Alias(target))
        }
        _ => Err(ReadingError::Refused(input.refuse(ReadingRule::Unexpected))),
    }
}

/// A name, `=`, and what the sort is declared to be.
#[tactic(auto, unfolding(crate::specs::Reading::declaration))]
fn declaration(input: &mut Input<'_>, alloc: Global) -> Result<SortDeclaration, ReadingError>
    ensures { ReadsSome sort_declaration_form reading.declaration input.old result input.new }
{
    let name = name(input, alloc)?;
    input.expect(Kind::Is)?;
    let sort = sort(input, alloc)?;
    Ok(SortDeclaration { name, sort })
}

/// One declaration or more.
fn declarations(input: &mut Input<'_>, alloc: Global) -> Result<Vec<SortDeclaration>, ReadingError>
    ensures { ReadsSome (λ v. map sort_declaration_form v.items) reading.declarations
        input.old result input.new }
{
    let mut declarations = Vec::new(alloc);
    'declarations: loop {
        let declaration = declaration(input, alloc)?;
        declarations.push(declaration)?;
        if !same_kind(input.kind(), Kind::Name) {
            return Ok(declarations);
        }
    }
}

/// `sort` and its declarations.
#[tactic(auto, unfolding(crate::specs::Reading::sort_part))]
fn sort_part(input: &mut Input<'_>, alloc: Global) -> Result<Vec<SortDeclaration>, ReadingError>
    ensures { ReadsSome (λ v. map sort_declaration_form v.items) reading.sort_part
        input.old result input.new }
{
    input.expect(Kind::Sort)?;
    declarations(input, alloc)
}

/// Any number of sort parts. The first token with which none goes on is refused as
/// `ReadingRule::Unexpected`.
pub fn sort_parts(
    input: &mut Input<'_>,
    alloc: Global,
) -> Result<Vec<SortDeclaration>, ReadingError>
    ensures { Gives (λ v. map sort_declaration_form v.items)
        (reading.sort_parts input.old) result input.new }
{
    unless(input, Kind::Name)?;
    let mut sorts = Vec::new(alloc);
    'parts: while same_kind(input.kind(), Kind::Sort) {
        let mut part = sort_part(input, alloc)?;
        sorts.append(&mut part)?;
    }
    Ok(sorts)
}
