//! Reads names, and data variables with their sorts.

ghost use Rattle.std.specs.Prelude.{map};
ghost use Rattle.pb_text_tree.specs.Form.{named, variables_form, variable_forms};
ghost use Rattle.pb_text_terms.specs.Readers.{ReadsSome};
ghost use Rattle.pb_text_terms.specs.Reading as reading;

use pb_text_lexer::fault::ReadingError;
use pb_text_lexer::input::Input;
use pb_text_lexer::kind::{Kind, same_kind};
use pb_text_tree::{Name, Variables};
use std::alloc::Global;

/// A name, where one must stand.
#[tactic(auto, unfolding(crate::specs::Reading::name))]
pub fn name(input: &mut Input<'_>, alloc: Global) -> Result<Name, ReadingError>
    ensures { ReadsSome named reading.name input.old result input.new }
{
    let (place, text) = input.expect_name()?;
    let text = text.to_owned(alloc)?;
    Ok(Name { place, text })
}

/// Names with commas between them.
fn names(input: &mut Input<'_>, alloc: Global) -> Result<Vec<Name>, ReadingError>
    ensures { ReadsSome (λ v. map named v.items) reading.names input.old result input.new }
{
    let mut names = Vec::with_capacity(alloc, 1)?;
    'names: loop {
        let name = name(input, alloc)?;
        names.push(name)?;
        if !same_kind(input.kind(), Kind::Comma) {
            return Ok(names);
        }
        input.take();
    }
}

/// Names with commas between them, a colon and their sort.
#[tactic(auto, unfolding(crate::specs::Reading::group))]
fn group(input: &mut Input<'_>, alloc: Global) -> Result<Variables, ReadingError>
    ensures { ReadsSome variables_form reading.group input.old result input.new }
{
    let names = names(input, alloc)?;
    input.expect(Kind::Colon)?;
    let sort = name(input, alloc)?;
    Ok(Variables { names, sort })
}

/// Data variables with their sorts, of one sort or of several.
pub fn variables(input: &mut Input<'_>, alloc: Global) -> Result<Vec<Variables>, ReadingError>
    ensures { ReadsSome (λ v. variable_forms v.items) reading.variables input.old result input.new }
{
    let mut variables = Vec::with_capacity(alloc, 1)?;
    'groups: loop {
        let group = group(input, alloc)?;
        variables.push(group)?;
        if !same_kind(input.kind(), Kind::Comma) {
            return Ok(variables);
        }
        input.take();
    }
}
