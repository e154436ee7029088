//! Which elements may be permuted where a property is decided.
ghost use Rattle.std.specs.Prelude.{◌≡◌, ◌⊎◌, Some, IfOk, IfSome};
ghost use Rattle.pb_protocol_tree.specs.Form.{property_form, protocol_form};
ghost use Rattle.pb_property_symmetry.specs.Permutable.{IsPermutable};
ghost use Rattle.pb_protocol_meaning.specs.Erase.{protocol_of};
ghost use Rattle.pb_protocol_symmetry_unfolded.specs.Laws.{IsQuantifiedAlone};
ghost use Rattle.pb_protocol_quantified_alone.specs.Alone.{formula_said};
ghost use Rattle.pb_property_symmetry.specs.Properties.{IsSameWhere};

use pb_protocol_quantified_alone::is_quantified_alone;
use pb_protocol_scalar_sets::{ScalarSet, formula_has_kinds, is_symmetric, movable_elements};
use pb_protocol_tree::{Property, Protocol};
use pb_protocol_unfolder::is_plain;
use std::alloc::{AllocError, Global};

/// Elements of a sort, by their values, that may be permuted.
#[derive(Drop)]
pub struct Permutable<'a> {
    pub sort: &'a str,
    pub elements: Vec<i32>,
}

impl<'a> Permutable<'a> {
    /// These elements as a set of a protocol's.
    pub fn set(&'a self, protocol: &'a Protocol) -> ScalarSet<'a>
        ensures protocol { result.protocol.now ≡ protocol.now }
        ensures sort { result.sort.now ≡ self.now.sort.now }
        ensures moved { result.moved.now ≡ self.now.elements.items }
    {
        ScalarSet {
            protocol,
            sort: self.sort,
            moved: &self.elements,
        }
    }
}

/// Those of a sort that neither the protocol nor the property names, where both are the same when
/// they are permuted. There are at least two.
fn permutable_in<'a>(
    alloc: Global,
    protocol: &'a Protocol,
    property: &Property,
    sort: &'a str,
) -> Result<Option<Permutable<'a>>, AllocError>
    requires { IsQuantifiedAlone (protocol_of protocol.now)
        (formula_said property.now.formula) }
    ensures { IfOk result (λ found. IfSome found (λ x. IsSameWhere
        (protocol_form protocol.now) (property_form property.now) x.sort.now x.elements.items)) }
{
    let elements = movable_elements(alloc, protocol, sort, &property.formula)?;
    if elements.len() < 2 {
        return Ok(None);
    }
    let moved = &elements;
    let set = ScalarSet {
        protocol,
        sort,
        moved,
    };
    if !is_symmetric(alloc, &set)? {
        return Ok(None);
    }
    if !formula_has_kinds(alloc, &set, &property.formula)? {
        return Ok(None);
    }
    Ok(Some(Permutable { sort, elements }))
}

/// Of two the one with more elements, the first where they have as many.
fn larger<'a>(first: Option<Permutable<'a>>, second: Permutable<'a>) -> Permutable<'a>
    ensures { (result ≡ second.entry) ⊎ (first.entry ≡ Some result) }
{
    match first {
        Some(x) if x.elements.len() >= second.elements.len() => x,
        _ => second,
    }
}

/// Elements of a sort that may be permuted where the property is decided: of the sorts of which two
/// or more may, one with the most (Ip and Dill 1996). It may find none where there are such.
///
/// # Errors
/// Memory was refused.
pub fn permutable_elements<'a>(
    alloc: Global,
    protocol: &'a Protocol,
    property: &Property,
) -> Result<Option<Permutable<'a>>, AllocError>
    ensures { IfOk result (λ found. IfSome found (λ x. IsPermutable
        (protocol_form protocol.now) (property_form property.now) x.sort.now x.elements.items)) }
{
    if is_plain(protocol) || !is_quantified_alone(&property.formula) {
        return Ok(None);
    }
    let mut most = None;
    for declaration in &protocol.sorts {
        let sort = declaration.name.text.as_str();
        if let Some(found) = permutable_in(alloc, protocol, property, sort)? {
            most = Some(larger(most, found));
        }
    }
    Ok(most)
}
