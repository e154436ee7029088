//! Copies declarations of sorts, and ranges, places included.

ghost use Rattle.std.specs.Prelude.{◌≡◌, map, IfOk};
ghost use Rattle.pb_text_tree.specs.Form.{enumerator_form, range_form, recogniser_form};
ghost use Rattle.pb_text_tree.specs.Form.{sort_declaration_form, sort_form};

use crate::variable_copies::copy_name;
use crate::{Enumerator, Name, Range, Sort, SortDeclaration};
use std::alloc::{AllocError, Global};

/// The name of a recogniser, where there is one.
fn copy_recogniser(alloc: Global, name: &Option<Name>) -> Result<Option<Name>, AllocError>
    ensures { IfOk result (λ n. recogniser_form n ≡ recogniser_form name.now) }
{
    match name {
        None => Ok(None),
        Some(name) => Ok(Some(copy_name(alloc, name)?)),
    }
}

/// An enumerator that is equal.
fn copy_enumerator(alloc: Global, enumerator: &Enumerator) -> Result<Enumerator, AllocError>
    ensures { IfOk result (λ e. enumerator_form e ≡ enumerator_form enumerator.now) }
{
    let name = copy_name(alloc, &enumerator.name)?;
    let recogniser = copy_recogniser(alloc, &enumerator.recogniser)?;
    Ok(Enumerator { name, recogniser })
}

/// Enumerators that are equal, in order.
fn copy_enumerators(
    alloc: Global,
    enumerators: &[Enumerator],
) -> Result<Vec<Enumerator>, AllocError>
    ensures { IfOk result (λ v. map enumerator_form v.items ≡ map enumerator_form enumerators.now) }
{
    let mut copies = Vec::new(alloc);
    for enumerator in enumerators {
        copies.push(copy_enumerator(alloc, enumerator)?)?;
    }
    Ok(copies)
}

/// What a sort is declared to be.
fn copy_sort(alloc: Global, sort: &Sort) -> Result<Sort, AllocError>
    ensures { IfOk result (λ s. sort_form s ≡ sort_form sort.now) }
{
    match sort {
        Sort::Struct(enumerators) => Ok(Sort::Struct(copy_enumerators(alloc, enumerators)?)),
        Sort::Alias(name) => Ok(Sort::Alias(copy_name(alloc, name)?)),
    }
}

/// A declaration that is equal.
fn copy_declaration(
    alloc: Global,
    declaration: &SortDeclaration,
) -> Result<SortDeclaration, AllocError>
    ensures { IfOk result
        (λ d. sort_declaration_form d ≡ sort_declaration_form declaration.now) }
{
    let name = copy_name(alloc, &declaration.name)?;
    let sort = copy_sort(alloc, &declaration.sort)?;
    Ok(SortDeclaration { name, sort })
}

/// Declarations of sorts that are equal, in order, places included.
///
/// # Errors
/// Memory was refused.
pub fn copy_declarations(
    alloc: Global,
    declarations: &[SortDeclaration],
) -> Result<Vec<SortDeclaration>, AllocError>
    ensures { IfOk result (λ v. map sort_declaration_form v.items
        ≡ map sort_declaration_form declarations.now) }
{
    let mut copies = Vec::new(alloc);
    for declaration in declarations {
        copies.push(copy_declaration(alloc, declaration)?)?;
    }
    Ok(copies)
}

/// A range that is equal.
fn copy_range(alloc: Global, range: &Range) -> Result<Range, AllocError>
    ensures { IfOk result (λ r. range_form r ≡ range_form range.now) }
{
    let name = range.name.as_str().to_owned(alloc)?;
    Ok(Range {
        place: range.place,
        name,
        low: range.low,
        high: range.high,
    })
}

/// Ranges that are equal, in order, places included.
///
/// # Errors
/// Memory was refused.
pub fn copy_ranges(alloc: Global, ranges: &[Range]) -> Result<Vec<Range>, AllocError>
    ensures { IfOk result (λ v. map range_form v.items ≡ map range_form ranges.now) }
{
    let mut copies = Vec::new(alloc);
    for range in ranges {
        copies.push(copy_range(alloc, range)?)?;
    }
    Ok(copies)
}
