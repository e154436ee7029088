//! Folded formulas joined by one connective.

ghost use Rattle.std.specs.Prelude.{◌≡◌, [], ◌∷◌, ◌++◌, map, flat_map, IfOk};
ghost use Rattle.pb_model_meaning.specs.Syntax as syntax;
ghost use Rattle.pb_protocol_folding.specs.Places.{AreAmong, places_of};
ghost use Rattle.pb_protocol_folding.specs.View.{formula_of};
ghost use Rattle.pb_protocol_unfolder.specs.Links.{folded_chain, folded_connected, linked_formula};
ghost use Rattle.pb_protocol_unfolder.specs.Places.{flat_link_places};

use pb_model_tree::{Formula, Link};
use pb_protocol_folding::{and_formula, implies_formula, or_formula};
use pb_text_tree::Connective;
use std::alloc::{AllocError, Global};

/// A connective of two folded formulas.
fn connected(
    alloc: Global,
    connective: Connective,
    left: Formula,
    right: Link,
) -> Result<Formula, AllocError>
    ensures formula { IfOk result (λ f. formula_of f
        ≡ folded_connected connective (formula_of left) (linked_formula right)) }
    ensures places { IfOk result
        (λ f. AreAmong (places_of f) (places_of left ++ flat_link_places right)) }
{
    match connective {
        Connective::And => and_formula(alloc, right.place, left, right.operand),
        Connective::Or => or_formula(alloc, right.place, left, right.operand),
        Connective::Implies => implies_formula(alloc, right.place, left, right.operand),
    }
}

/// The last link, with all before it in front of its operand.
fn joined_links(
    alloc: Global,
    connective: Connective,
    mut links: Vec<Link>,
    mut last: Link,
) -> Result<Link, AllocError>
    ensures formula { IfOk result (λ link. (f : syntax.Formula) →
        folded_chain connective f (map linked_formula links.items ++ linked_formula last ∷ [])
        ≡ folded_connected connective f (linked_formula link)) }
    ensures places { IfOk result (λ link. AreAmong (flat_link_places link)
        (flat_map flat_link_places links.items ++ flat_link_places last)) }
{
    while let Some(before) = links.pop() {
        let place = before.place;
        let operand = connected(alloc, connective, before.operand, last)?;
        last = Link { place, operand };
    }
    Ok(last)
}

/// Folded formulas behind a connective, read to the right: `first c (operand c (operand ..))`.
pub(crate) fn joined(
    alloc: Global,
    connective: Connective,
    first: Formula,
    mut links: Vec<Link>,
) -> Result<Formula, AllocError>
    ensures formula { IfOk result (λ f. formula_of f
        ≡ folded_chain connective (formula_of first) (map linked_formula links.items)) }
    ensures places { IfOk result (λ f. AreAmong (places_of f)
        (places_of first ++ flat_map flat_link_places links.items)) }
{
    let Some(last) = links.pop() else {
        return Ok(first);
    };
    let others = joined_links(alloc, connective, links, last)?;
    connected(alloc, connective, first, others)
}
