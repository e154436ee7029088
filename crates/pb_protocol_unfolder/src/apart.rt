//! Names that are apart: those of elements, of enumerators and of written-out steps.

ghost use Rattle.std.specs.Prelude.{◌≡◌, map, IfOk, MatchOption};
ghost use Rattle.std.specs.List.{list_any};
ghost use Rattle.pb_text_meaning.specs.Syntax.{same_name};
ghost use Rattle.pb_protocol_folding.specs.Names.{AreDistinct, AreNot, enumerators_in};
ghost use Rattle.pb_protocol_unfolder.specs.Apart.{IsTakenAt, RepeatsAt, declarations_said};
ghost use Rattle.pb_protocol_unfolder.specs.Apart.{enumerator_bytes, name_bytes};
ghost use Rattle.pb_protocol_unfolder.specs.Apart as view;

use pb_text_tree::{Enumerator, Name, Sort, SortDeclaration};
use std::alloc::{AllocError, Global};
use std::collections::HashSet;

/// The first name that stands in front of itself too.
pub(crate) fn first_repeated(alloc: Global, names: &[Name]) -> Result<Option<usize>, AllocError>
    ensures { IfOk result
        (λ found. MatchOption found (AreDistinct (map name_bytes names.now))
        (RepeatsAt (map name_bytes names.now))) }
{
    let mut before = HashSet::new(alloc);
    for (index, name) in names.iter().enumerate() {
        let is_new = before.insert(name.text.as_str())?;
        if !is_new {
            return Ok(Some(index));
        }
    }
    Ok(None)
}

/// Whether a name is that of an enumerator of a sort.
fn is_enumerator(enumerators: &[Enumerator], name: &str) -> bool
    ensures { result ≡ list_any (same_name name.now) (map enumerator_bytes enumerators.now) }
{
    for enumerator in enumerators {
        if name == enumerator.name.text.as_str() {
            return true;
        }
    }
    false
}

/// Whether a sort has an enumerator of this name.
fn has_enumerator(declaration: &SortDeclaration, name: &str) -> bool
    ensures { result ≡ view.has_enumerator name.now declaration.now }
{
    match &declaration.sort {
        Sort::Struct(enumerators) => is_enumerator(enumerators, name),
        Sort::Alias(_) => false,
    }
}

/// Whether some sort has an enumerator of this name.
fn some_has_enumerator(declarations: &[SortDeclaration], name: &str) -> bool
    ensures { result ≡ list_any (view.has_enumerator name.now) declarations.now }
{
    for declaration in declarations {
        if has_enumerator(declaration, name) {
            return true;
        }
    }
    false
}

/// Whether a name is that of an enumerator.
fn is_taken(declarations: &[SortDeclaration], name: &str) -> bool
    ensures { result ≡ list_any (same_name name.now)
        (enumerators_in (declarations_said declarations.now)) }
{
    some_has_enumerator(declarations, name)
}

/// The first of these names that an enumerator has.
pub(crate) fn first_taken(declarations: &[SortDeclaration], names: &[Name]) -> Option<usize>
    ensures { MatchOption result
        (AreNot (enumerators_in (declarations_said declarations.now)) (map name_bytes names.now))
        (IsTakenAt (enumerators_in (declarations_said declarations.now))
        (map name_bytes names.now)) }
{
    for (index, name) in names.iter().enumerate() {
        if is_taken(declarations, name.text.as_str()) {
            return Some(index);
        }
    }
    None
}
