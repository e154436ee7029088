//! Reads declarations of sorts: by enumerators, as another name of a sort, or by bounds.
//!
//! What stands behind `=` and isn't `struct` is read as data first. The token behind it decides:
//! `;` behind a name alone ends an alias, and a period goes on with the greatest value.

ghost use Rattle.std.specs.Prelude.{◌≡◌, map, IfOk};
ghost use Rattle.pb_text_lexer.specs.Steps as spec;
ghost use Rattle.pb_text_lexer.specs.Steps.{Gives};
ghost use Rattle.pb_text_terms.specs.Readers.{ReadsSome};
ghost use Rattle.pb_text.specs.Parsing.{depth_limit};
ghost use Rattle.pb_text_tree.specs.Form.{named, sort_form, term_form};
ghost use Rattle.pb_model_text.specs.Links.{declared_sort_form, name_said, placed_term};
ghost use Rattle.pb_model_text.specs.ModelReading as reading;
ghost use Rattle.pb_model_text.specs.Models as grammar;

use pb_base::{MAX_DEPTH, both};
use pb_protocol_tree::Bounds;
use pb_text_formulas::next::unless;
use pb_text_formulas::sort::enumerators;
use pb_text_lexer::fault::{ReadingError, ReadingRule};
use pb_text_lexer::input::Input;
use pb_text_lexer::kind::{Kind, same_kind};
use pb_text_terms::term::equated;
use pb_text_terms::variable::name;
use pb_text_tree::{Argument, Name, Place, Sort, SortDeclaration, Term, copy_name};
use std::alloc::{AllocError, Global};

/// A declaration of a sort, and the sort's bounds where it is declared by them.
#[derive(Drop)]
pub struct DeclaredSort {
    pub declaration: SortDeclaration,
    pub bounds: Option<Bounds>,
}

/// The sort of whole numbers at a place.
fn integers_at(alloc: Global, place: Place) -> Result<Name, AllocError>
    ensures { IfOk result (λ n. named n ≡ grammar.integers_at place) }
{
    let text = "Int".to_owned(alloc)?;
    Ok(Name { place, text })
}

/// Data without connectives, with the place of its first token.
#[tactic(auto, unfolding(crate::specs::ModelReading::bound))]
fn bound(input: &mut Input<'_>, alloc: Global) -> Result<Argument, ReadingError>
    ensures { ReadsSome placed_term (reading.bound depth_limit) input.old result input.new }
{
    let place = input.place();
    let term = equated(input, alloc, MAX_DEPTH as u32)?;
    Ok(Argument { place, term })
}

/// Two periods, data and `;`.
#[tactic(auto, unfolding(crate::specs::ModelReading::greatest))]
fn greatest(input: &mut Input<'_>, alloc: Global) -> Result<Argument, ReadingError>
    ensures { ReadsSome placed_term (reading.greatest depth_limit) input.old result input.new }
{
    input.expect(Kind::Period)?;
    input.expect(Kind::Period)?;
    let high = bound(input, alloc)?;
    let (high, _) = both(high, input.expect(Kind::Semicolon))?;
    Ok(high)
}

/// A sort by its bounds.
fn within(
    alloc: Global,
    name: Name,
    low: Argument,
    high: Argument,
) -> Result<DeclaredSort, AllocError>
    ensures { IfOk result (λ s. declared_sort_form s
        ≡ grammar.declared_within (named name) (placed_term low) (placed_term high)) }
{
    let sort = copy_name(alloc, &name)?;
    let target = integers_at(alloc, low.place)?;
    Ok(DeclaredSort {
        declaration: SortDeclaration {
            name,
            sort: Sort::Alias(target),
        },
        bounds: Some(Bounds { sort, low, high }),
    })
}

/// A sort by its bounds, of which the first is read.
#[inline(never)]
#[tactic(auto, unfolding(crate::specs::ModelReading::up_to))]
fn up_to(
    input: &mut Input<'_>,
    alloc: Global,
    name: Name,
    low: Argument,
) -> Result<DeclaredSort, ReadingError>
    ensures { ReadsSome declared_sort_form
        (reading.up_to depth_limit (named name) (placed_term low)) input.old result input.new }
{
    let ((name, low), high) = both((name, low), greatest(input, alloc))?;
    Ok(within(alloc, name, low, high)?)
}

/// A sort by its bounds.
#[inline(never)]
fn sort_within(
    input: &mut Input<'_>,
    alloc: Global,
    name: Name,
) -> Result<DeclaredSort, ReadingError>
    ensures { ReadsSome declared_sort_form (reading.sort_within depth_limit (named name))
        input.old result input.new }
{
    let (name, low) = both(name, bound(input, alloc))?;
    up_to(input, alloc, name, low)
}

/// The name that a term is alone. A chain and arithmetic without links are their operands.
fn name_alone(term: &Term) -> Option<&Name>
    ensures { name_said result ≡ grammar.name_alone (term_form term.now) }
{
    match term {
        Term::Name(name) => Some(name),
        Term::Chain { first, links, .. } => {
            if links.is_empty() {
                return name_alone(first);
            }
            None
        }
        Term::Arithmetic { first, links } => {
            if links.is_empty() {
                return name_alone(first);
            }
            None
        }
        _ => None,
    }
}

/// A sort as another name of one that is read, up to the semicolon; other data than a name alone is
/// refused there.
#[inline(never)]
fn sort_named(
    input: &mut Input<'_>,
    alloc: Global,
    name: Name,
    target: &Term,
) -> Result<DeclaredSort, ReadingError>
    requires { spec.kind input.old ≡ Kind.Semicolon }
    ensures { ReadsSome declared_sort_form
        (reading.sort_named (named name) (term_form target.now)) input.old result input.new }
{
    let Some(target) = name_alone(target) else {
        drop(name);
        return Err(ReadingError::Refused(input.refuse(ReadingRule::Unexpected)));
    };
    let (name, target) = both(name, copy_name(alloc, target))?;
    input.take();
    Ok(declared_as(name, Sort::Alias(target)))
}

/// A sort that isn't declared by bounds.
fn declared_as(name: Name, sort: Sort) -> DeclaredSort
    ensures { declared_sort_form result ≡ grammar.declared_as (named name) (sort_form sort) }
{
    DeclaredSort {
        declaration: SortDeclaration { name, sort },
        bounds: None,
    }
}

/// Another name of a sort, or a sort by its bounds, of which the first begins with a name.
#[inline(never)]
fn sort_behind_name(
    input: &mut Input<'_>,
    alloc: Global,
    name: Name,
) -> Result<DeclaredSort, ReadingError>
    requires { spec.kind input.old ≡ Kind.Name }
    ensures { ReadsSome declared_sort_form
        (reading.sort_by depth_limit (named name) Kind.Name) input.old result input.new }
{
    let (name, first) = both(name, bound(input, alloc))?;
    match input.kind() {
        Kind::Semicolon => {
            let sort = sort_named(input, alloc, name, &first.term);
            drop(first);
            sort
        }
        Kind::Period => up_to(input, alloc, name, first),
        _ => {
            drop(name);
            drop(first);
            Err(ReadingError::Refused(input.refuse(ReadingRule::Unexpected)))
        }
    }
}

/// `struct`, enumerators and `;`.
#[inline(never)]
fn sort_of_enumerators(
    input: &mut Input<'_>,
    alloc: Global,
    name: Name,
) -> Result<DeclaredSort, ReadingError>
    requires { spec.kind input.old ≡ Kind.Struct }
    ensures { ReadsSome declared_sort_form
        (reading.sort_by depth_limit (named name) Kind.Struct) input.old result input.new }
{
    input.take();
    let (name, found) = both(name, enumerators(input, alloc))?;
    let ((name, found), _) = both((name, found), input.expect(Kind::Semicolon))?;
    Ok(declared_as(name, Sort::Struct(found)))
}

/// A name, `=`, and what the sort is declared to be.
#[tactic(auto, unfolding(crate::specs::ModelReading::sort_parts))]
fn sort_parts(input: &mut Input<'_>, alloc: Global) -> Result<DeclaredSort, ReadingError>
    ensures { ReadsSome declared_sort_form (reading.sort_parts depth_limit)
        input.old result input.new }
{
    let name = name(input, alloc)?;
    let (name, _) = both(name, input.expect(Kind::Is))?;
    match input.kind() {
        Kind::Struct => sort_of_enumerators(input, alloc, name),
        Kind::Name => sort_behind_name(input, alloc, name),
        Kind::Number | Kind::Minus | Kind::Open => sort_within(input, alloc, name),
        _ => {
            drop(name);
            Err(ReadingError::Refused(input.refuse(ReadingRule::Unexpected)))
        }
    }
}

/// A sort, with all the operators that its bounds may have.
#[tactic(auto, unfolding(crate::specs::ModelReading::sort))]
fn sort(input: &mut Input<'_>, alloc: Global) -> Result<DeclaredSort, ReadingError>
    ensures { ReadsSome declared_sort_form (reading.sort depth_limit)
        input.old result input.new }
{
    let allowed = input.operators();
    let sort = sort_parts(input, alloc)?;
    input.allow(allowed);
    Ok(sort)
}

/// One sort or more.
fn sort_list(input: &mut Input<'_>, alloc: Global) -> Result<Vec<DeclaredSort>, ReadingError>
    ensures { ReadsSome (λ v. map declared_sort_form v.items) (reading.sort_list depth_limit)
        input.old result input.new }
{
    let mut sorts = Vec::new(alloc);
    'sorts: loop {
        let sort = sort(input, alloc)?;
        sorts.push(sort)?;
        if !same_kind(input.kind(), Kind::Name) {
            return Ok(sorts);
        }
    }
}

/// `sort` and its declarations.
#[tactic(auto, unfolding(crate::specs::ModelReading::sort_part))]
fn sort_part(input: &mut Input<'_>, alloc: Global) -> Result<Vec<DeclaredSort>, ReadingError>
    ensures { ReadsSome (λ v. map declared_sort_form v.items) (reading.sort_part depth_limit)
        input.old result input.new }
{
    input.expect(Kind::Sort)?;
    sort_list(input, alloc)
}

/// Any number of sort parts. The first token with which none goes on is refused as
/// `ReadingRule::Unexpected`.
pub fn sorts(input: &mut Input<'_>, alloc: Global) -> Result<Vec<DeclaredSort>, ReadingError>
    ensures { Gives (λ v. map declared_sort_form v.items)
        (reading.sorts depth_limit input.old) result input.new }
{
    unless(input, Kind::Name)?;
    let mut sorts = Vec::new(alloc);
    'parts: while same_kind(input.kind(), Kind::Sort) {
        let mut part = sort_part(input, alloc)?;
        sorts.append(&mut part)?;
    }
    Ok(sorts)
}
