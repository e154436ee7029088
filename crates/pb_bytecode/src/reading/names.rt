//! Names and sorts.
ghost use Rattle.std.specs.Prelude.{◌≡◌, ◌+◌, IfOk, map, vec_len};
ghost use Rattle.pb_bytecode.specs.Contents.{counts};
ghost use Rattle.pb_bytecode.specs.Reading.{Gives, counted_at, items_at, name_at, sort_at};
ghost use Rattle.pb_bytecode.specs.Views.{sort_contents, text_of};

use super::numbers::{between_at, fault, truncated, u8_at};
use crate::fault::{ModuleRule, ReadError};
use crate::name::{Name, is_name};
use crate::sort::Sort;
use pb_base::{MAX_ENUMERATORS, MAX_STRUCTS};
use std::alloc::{AllocError, Global};

/// The length of a name and its bytes; B05 where they are none.
#[tactic(auto, unfolding(crate::specs::Reading::name_at))]
pub(crate) fn name_at(alloc: Global, bytes: &[u8]) -> Result<(Name, &[u8]), ReadError>
    ensures { Gives (λ x. (text_of x.0, x.1.now)) result (name_at bytes.now) }
{
    let (len, rest) = u8_at(bytes)?;
    if rest.len() < len as usize {
        return Err(ReadError::Refused(truncated()));
    }
    let (text, rest) = rest.split_at(len as usize);
    if !is_name(text) {
        return Err(ReadError::Refused(fault(ModuleRule::Limit, bytes)));
    }
    match std::str::from_utf8(text) {
        Ok(text) => Ok((
            Name {
                text: String::from_str(alloc, text)?,
            },
            rest,
        )),
        Err(_) => unreachable!(),
    }
}

fn names_at(alloc: Global, count: u8, bytes: &[u8]) -> Result<(Vec<Name>, &[u8]), ReadError>
    ensures names { Gives (λ x. (map text_of x.0.items, x.1.now)) result
        (items_at name_at count bytes.now) }
    ensures count { IfOk result (λ x. vec_len x.0 ≡ count) }
{
    let mut names = Vec::with_capacity(alloc, count as usize)?;
    let mut rest = bytes;
    for _ in 0..count {
        let (name, after) = name_at(alloc, rest)?;
        names.push(name)?;
        rest = after;
    }
    Ok((names, rest))
}

#[tactic(auto, unfolding(crate::specs::Reading::sort_at, crate::specs::Reading::counted_at))]
fn sort_at(alloc: Global, bytes: &[u8]) -> Result<(Sort, &[u8]), ReadError>
    ensures { Gives (λ x. (sort_contents x.0, x.1.now)) result (sort_at bytes.now) }
{
    let (count, rest) = between_at(1, MAX_ENUMERATORS + 1, bytes)?;
    let (enumerators, rest) = names_at(alloc, count, rest)?;
    Ok((Sort { enumerators }, rest))
}

fn items_at(alloc: Global, count: u8, bytes: &[u8]) -> Result<(Vec<Sort>, &[u8]), ReadError>
    ensures { Gives (λ x. (map sort_contents x.0.items, x.1.now)) result
        (items_at sort_at count bytes.now) }
{
    let mut sorts = Vec::with_capacity(alloc, count as usize)?;
    let mut rest = bytes;
    for _ in 0..count {
        let (sort, after) = sort_at(alloc, rest)?;
        sorts.push(sort)?;
        rest = after;
    }
    Ok((sorts, rest))
}

/// The sorts of a module.
#[tactic(auto, unfolding(crate::specs::Reading::counted_at))]
pub(crate) fn sorts_at(alloc: Global, bytes: &[u8]) -> Result<(Vec<Sort>, &[u8]), ReadError>
    ensures { Gives (λ x. (map sort_contents x.0.items, x.1.now)) result
        (counted_at 0 (MAX_STRUCTS + 1) sort_at bytes.now) }
{
    let (count, rest) = between_at(0, MAX_STRUCTS + 1, bytes)?;
    items_at(alloc, count, rest)
}

/// How many enumerators each sort has.
pub(crate) fn sizes_of(alloc: Global, sorts: &[Sort]) -> Result<Vec<u8>, AllocError>
    ensures { IfOk result (λ sizes. sizes.items ≡ counts (map sort_contents sorts.now)) }
{
    let mut sizes = Vec::with_capacity(alloc, sorts.len())?;
    for sort in sorts {
        sizes.push(sort.enumerators.len() as u8)?;
    }
    Ok(sizes)
}
