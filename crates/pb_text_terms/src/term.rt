//! Reads data terms: an operand, and then operators by the table of their levels. The recursion is
//! as deep as brackets, signs and quantifiers nest.

ghost use Rattle.std.specs.Prelude.{◌≡◌, ◌≤◌, Ok};
ghost use Rattle.pb_text_tree.specs.Form.{term_form};
ghost use Rattle.pb_text_terms.specs.Levels.{rank};
ghost use Rattle.pb_text_terms.specs.Readers.{ReadsSome, ReadsOn, BeginsAt};
ghost use Rattle.pb_text_terms.specs.Reading as reading;

use crate::chain::joined_by;
pub use crate::instance::{argument_list, instance};
use crate::level::{Level, Levels, begins_quantified, level_of, next_operator};
use crate::primary::quantified;
pub use crate::primary::unary;
use pb_text_lexer::fault::ReadingError;
use pb_text_lexer::input::Input;
use pb_text_tree::Term;
use std::alloc::Global;

/// A term of the level. Most often no operator follows the first operand at all.
#[cycle(terms)]
pub fn term_at(
    input: &mut Input<'_>,
    alloc: Global,
    depth: u32,
    limit: Level,
) -> Result<Term, ReadingError>
    ensures { ReadsSome term_form (reading.at limit depth) input.old result input.new }
{
    if begins_quantified(limit, input.kind()) {
        let whole = quantified(input, alloc, depth)?;
        let above = Level::Quantified;
        return operated(input, alloc, depth, Levels { above, limit }, whole);
    }
    let first = unary(input, alloc, depth);
    let above = Level::Unary;
    match next_operator(Levels { above, limit }, input.kind()) {
        None => first,
        Some(_) => operated(input, alloc, depth, Levels { above, limit }, first?),
    }
}

/// What operators of these levels make of a first operand and of what stands behind it.
#[cycle(terms)]
#[inline(never)]
fn operated(
    input: &mut Input<'_>,
    alloc: Global,
    depth: u32,
    levels: Levels,
    first: Term,
) -> Result<Term, ReadingError>
    requires { rank levels.above ≤ rank levels.limit }
    ensures { ReadsOn term_form (reading.at levels.limit depth)
        (BeginsAt levels.above levels.limit depth (term_form first) input.old)
        input.old result input.new }
{
    let Levels { mut above, limit } = levels;
    let mut left = first;
    'operators: while let Some(operator) = next_operator(Levels { above, limit }, input.kind()) {
        left = joined_by(input, alloc, depth, operator, left)?;
        above = level_of(operator);
    }
    Ok(left)
}

/// What operators of arithmetic and comparisons make of a first operand and of what stands behind
/// it.
pub fn operators_behind(
    input: &mut Input<'_>,
    alloc: Global,
    depth: u32,
    first: Term,
) -> Result<Term, ReadingError>
    ensures { ReadsOn term_form (reading.equated (reading.unary depth))
        (λ s. reading.unary depth s ≡ Ok (term_form first, input.old))
        input.old result input.new }
{
    let levels = Levels {
        above: Level::Unary,
        limit: Level::Equality,
    };
    operated(input, alloc, depth, levels, first)
}

/// One term without connectives, or two that are compared for equality.
pub fn equated(input: &mut Input<'_>, alloc: Global, depth: u32) -> Result<Term, ReadingError>
    ensures { ReadsSome term_form (reading.equated (reading.unary depth))
        input.old result input.new }
{
    term_at(input, alloc, depth, Level::Equality)
}

/// A data term, in which so many levels may open.
pub fn term(input: &mut Input<'_>, alloc: Global, depth: u32) -> Result<Term, ReadingError>
    ensures { ReadsSome term_form (reading.term depth) input.old result input.new }
{
    term_at(input, alloc, depth, Level::Implication)
}
