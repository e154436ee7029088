//! Nodes of connectives.

ghost use Rattle.std.specs.Prelude.{◌≡◌, IfOk};
ghost use Rattle.pb_text_tree.specs.Form.{chained};
ghost use Rattle.pb_protocol_tree.specs.Form.{FormulaForm, formula_form};
ghost use Rattle.pb_protocol_tree.specs.Links.{link_forms};

use pb_base::both;
use pb_protocol_tree::{Formula, Link};
use pb_text_tree::{Connective, Place};
use std::alloc::{AllocError, Global};

/// The node of a chain, or its first operand where there is no other.
pub fn joined(
    alloc: Global,
    connective: Connective,
    first: Formula,
    links: Vec<Link>,
) -> Result<Formula, AllocError>
    ensures { IfOk result (λ f. formula_form f
        ≡ chained (FormulaForm.connected connective) (formula_form first)
        (link_forms links.items)) }
{
    if links.is_empty() {
        return Ok(first);
    }
    let first = Box::new(alloc, first)?;
    Ok(Formula::Chain {
        connective,
        first,
        links,
    })
}

/// The node of two operands, whose connective stands at this place.
pub fn connected(
    alloc: Global,
    connective: Connective,
    place: Place,
    first: Formula,
    second: Formula,
) -> Result<Formula, AllocError>
    ensures { IfOk result (λ f. formula_form f
        ≡ FormulaForm.connected connective place (formula_form first) (formula_form second)) }
{
    let operand = second;
    let links = vec![in alloc; Link { place, operand }];
    let (first, links) = both(first, links)?;
    joined(alloc, connective, first, links)
}
