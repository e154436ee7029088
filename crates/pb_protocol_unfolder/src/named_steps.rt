//! Sets of steps by the names of the steps in them.

ghost use Rattle.std.specs.Prelude.{◌≡◌, map, IfOk};
ghost use Rattle.pb_protocol_folding.specs.View.{set_of};
ghost use Rattle.pb_protocol_unfolding.specs.Unfolding as definitions;
ghost use Rattle.pb_protocol_unfolder.specs.Apart.{name_bytes};
ghost use Rattle.pb_protocol_unfolder.specs.Sets.{only, set_behind, united};

use pb_model_tree::{StepSet, StepSetLink};
use pb_text_tree::{Name, Place};
use std::alloc::{AllocError, Global};

/// The steps of names, each behind a `||` at the place.
fn named_links(
    alloc: Global,
    place: Place,
    names: Vec<Name>,
) -> Result<Vec<StepSetLink>, AllocError>
    ensures { IfOk result
        (λ v. map set_behind v.items ≡ map only (map name_bytes names.items)) }
{
    let mut links = Vec::new(alloc);
    for name in names {
        let operand = StepSet::Step(name);
        links.push(StepSetLink { place, operand })?;
    }
    Ok(links)
}

/// The union of the sets behind links.
fn union_of_links(
    alloc: Global,
    place: Place,
    mut links: Vec<StepSetLink>,
) -> Result<StepSet, AllocError>
    ensures { IfOk result (λ A. set_of A ≡ united (map set_behind links.items)) }
{
    if links.is_empty() {
        let operand = Box::new(alloc, StepSet::All { place })?;
        return Ok(StepSet::Complement { place, operand });
    }
    let first = links.remove(0);
    let first = Box::new(alloc, first.operand)?;
    Ok(StepSet::Union { first, links })
}

/// The set of the steps of these names; what isn't a name in it stands at the place.
pub(crate) fn named_steps(
    alloc: Global,
    place: Place,
    names: Vec<Name>,
) -> Result<StepSet, AllocError>
    ensures { IfOk result
        (λ A. set_of A ≡ definitions.named_steps (map name_bytes names.items)) }
{
    let links = named_links(alloc, place, names)?;
    union_of_links(alloc, place, links)
}
