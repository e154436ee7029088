//! The ends of chains of aliases. What was found of an alias is kept, so that a long chain is
//! followed once and not once for each alias on it: a text may hold millions of aliases of one
//! another.

ghost use Rattle.std.specs.Prelude.{◌≡◌, ◌≤◌, ◌<◌, ◌+◌, ◌-◌, suc, IfOk, MatchOption, OnOk};
ghost use Rattle.pb_typing_declarations.specs.Shapes as ends;
ghost use Rattle.pb_typing_declarations.specs.Shapes.{end_within};
ghost use Rattle.pb_typing_declarations.specs.Entries.{end_shown, range_in, definition_in};
ghost use Rattle.pb_typing_declarations.specs.Chains.{AreChains, IsChain};

use crate::chain::{End, Step, chain_step};
use crate::definition::Definition;
use pb_sorts::Range;
use pb_text_tree::SortDeclaration;
use std::alloc::{AllocError, Global};
use std::collections::HashMap;

/// A chain of aliases that has an end, and how many aliases stand before it.
#[derive(Clone, Copy)]
pub(crate) struct Chain {
    pub end: End,
    pub aliases: usize,
}

/// The chains of the aliases among some sorts, and those without any ranges.
#[derive(Drop)]
pub(crate) struct Chains<'a> {
    pub chains: HashMap<&'a str, Chain>,
    pub bases: HashMap<&'a str, Chain>,
}

/// Both kinds of chains, each up to the first sort that has no end.
pub(crate) fn all_chains<'a>(
    alloc: Global,
    definitions: &HashMap<&'a str, Definition<'a>>,
    ranges: &HashMap<&'a str, Range>,
    sorts: &'a [SortDeclaration],
) -> Result<Chains<'a>, AllocError>
    ensures { IfOk result (λ both. AreChains (range_in ranges.now)
        (definition_in definitions.now) both.chains
        × AreChains (λ s. None) (definition_in definitions.now) both.bases) }
{
    let chains = read_chains(alloc, definitions, ranges, sorts)?;
    let bases = read_bases(alloc, definitions, sorts)?;
    Ok(Chains { chains, bases })
}

/// The chains of the aliases among some sorts, up to the first that has no end.
fn read_chains<'a>(
    alloc: Global,
    definitions: &HashMap<&'a str, Definition<'a>>,
    ranges: &HashMap<&'a str, Range>,
    sorts: &'a [SortDeclaration],
) -> Result<HashMap<&'a str, Chain>, AllocError>
    ensures { IfOk result (λ chains. AreChains (range_in ranges.now)
        (definition_in definitions.now) chains) }
{
    let mut chains = HashMap::new(alloc);
    for declaration in sorts {
        let sort = declaration.name.text.as_str();
        match find_chain(definitions, ranges, &chains, sorts.len(), sort) {
            Some(chain) => keep_chain(definitions, ranges, &mut chains, sort, chain)?,
            None => return Ok(chains),
        }
    }
    Ok(chains)
}

/// The same without any ranges.
fn read_bases<'a>(
    alloc: Global,
    definitions: &HashMap<&'a str, Definition<'a>>,
    sorts: &'a [SortDeclaration],
) -> Result<HashMap<&'a str, Chain>, AllocError>
    ensures { IfOk result (λ chains. AreChains (λ s. None) (definition_in definitions.now) chains) }
{
    let ranges = HashMap::new(alloc);
    read_chains(alloc, definitions, &ranges, sorts)
}

/// What stands at the end of the chain that begins at a sort. A chain of more than `limit` aliases
/// has no end.
pub(crate) fn chain_end<'a>(
    definitions: &HashMap<&'a str, Definition<'a>>,
    ranges: &HashMap<&'a str, Range>,
    chains: &HashMap<&'a str, Chain>,
    limit: usize,
    sort: &str,
) -> End
    requires { AreChains (range_in ranges.now) (definition_in definitions.now) chains.now }
    ensures { end_shown result ≡ end_within (suc limit) (range_in ranges.now)
        (definition_in definitions.now) sort.now }
{
    match find_chain(definitions, ranges, chains, limit, sort) {
        Some(chain) => chain.end,
        None => End::Endless,
    }
}

/// The chain that begins at a sort, if it has an end behind at most `limit` aliases. It is followed
/// to its end or to the first alias that is kept.
fn find_chain<'a>(
    definitions: &HashMap<&'a str, Definition<'a>>,
    ranges: &HashMap<&'a str, Range>,
    chains: &HashMap<&'a str, Chain>,
    limit: usize,
    sort: &str,
) -> Option<Chain>
    requires { AreChains (range_in ranges.now) (definition_in definitions.now) chains.now }
    ensures { MatchOption result
        (end_within (suc limit) (range_in ranges.now) (definition_in definitions.now) sort.now
        ≡ ends.Endless)
        (λ chain. IsChain (range_in ranges.now) (definition_in definitions.now) sort.now chain
        × (chain.aliases ≤ limit)) }
{
    let mut sort = sort;
    let mut left = limit;
    loop {
        if let Some(kept) = chains.get(sort) {
            return lengthen(*kept, limit, left);
        }
        match chain_step(definitions, ranges, sort) {
            Step::Ends(end) => {
                let aliases = limit - left;
                return Some(Chain { end, aliases });
            }
            Step::GoesOn(target) => {
                if left == 0 {
                    return None;
                }
                left -= 1;
                sort = target;
            }
        }
    }
}

/// A chain with some more aliases before it, if there are at most `limit`. So many of them are
/// `left` for the chain.
fn lengthen(chain: Chain, limit: usize, left: usize) -> Option<Chain>
    requires { left ≤ limit }
    ensures { MatchOption result (left < chain.aliases)
        (λ longer. (longer.end ≡ chain.end) × (longer.aliases ≡ (limit - left) + chain.aliases)
        × (longer.aliases ≤ limit)) }
{
    if left < chain.aliases {
        return None;
    }
    Some(Chain {
        end: chain.end,
        aliases: limit - left + chain.aliases,
    })
}

/// Keeps the chains of a sort and of the aliases behind it, up to the first that is kept already.
fn keep_chain<'a>(
    definitions: &HashMap<&'a str, Definition<'a>>,
    ranges: &HashMap<&'a str, Range>,
    chains: &mut HashMap<&'a str, Chain>,
    sort: &'a str,
    chain: Chain,
) -> Result<(), AllocError>
    requires kept { AreChains (range_in ranges.now) (definition_in definitions.now) chains.old }
    requires chain { IsChain (range_in ranges.now) (definition_in definitions.now) sort.now chain }
    ensures { OnOk result (AreChains (range_in ranges.now)
        (definition_in definitions.now) chains.new) }
{
    let mut sort = sort;
    let mut aliases = chain.aliases;
    while aliases > 0 && !chains.contains_key(sort) {
        match chain_step(definitions, ranges, sort) {
            Step::Ends(_) => return Ok(()),
            Step::GoesOn(target) => {
                let end = chain.end;
                chains.insert(sort, Chain { end, aliases })?;
                sort = target;
                aliases -= 1;
            }
        }
    }
    Ok(())
}
