//! Links of chains, whatever their operands are: what is generic in them releases them in one
//! place.

ghost use Rattle.std.specs.Prelude.{◌≡◌, [], ◌∷◌, IfOk, Ok, box_value};

use std::alloc::{AllocError, Global};

/// A link alone.
pub(crate) fn alone<T: Drop>(alloc: Global, link: T) -> Result<Vec<T>, AllocError>
    ensures { IfOk result (λ links. links.items ≡ link ∷ []) }
{
    let mut links = Vec::new(alloc);
    links.push(link)?;
    Ok(links)
}

/// Links with one more in front.
pub(crate) fn with_first<T: Drop>(mut links: Vec<T>, first: T) -> Result<Vec<T>, AllocError>
    ensures { IfOk result (λ more. more.items ≡ first ∷ links.items) }
{
    links.insert(0, first)?;
    Ok(links)
}

/// The first operand of a chain, in memory of its own, and the links behind it, if these are there.
pub(crate) fn first_and_links<T: Drop, L: Drop>(
    alloc: Global,
    first: T,
    links: Result<Vec<L>, AllocError>,
) -> Result<(Box<T>, Vec<L>), AllocError>
    ensures { IfOk result (λ chain. (box_value chain.0 ≡ first) × (links ≡ Ok chain.1)) }
{
    let links = links?;
    let first = Box::new(alloc, first)?;
    Ok((first, links))
}
