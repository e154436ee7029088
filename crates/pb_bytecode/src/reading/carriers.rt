//! Carriers of parameters and of loop slots.
ghost use Rattle.std.specs.Prelude.{◌≡◌, ◌≤ℤ◌};
ghost use Rattle.pb_sorts.specs.Carrier.{IsRange};
ghost use Rattle.pb_bytecode.specs.Reading.{Gives, IsRead, carrier_at, counted_at, enum_at};
ghost use Rattle.pb_bytecode.specs.Reading.{items_at, range_at};

use super::numbers::{between_at, fault, i32_at, u8_at};
use crate::fault::{FieldFault, ModuleRule, ReadError};
use pb_sorts::{Carrier, Enumeration, Range};
use std::alloc::Global;

/// A sort, `sizes` giving how many enumerators each has; B05 where there is no such sort.
#[tactic(auto, unfolding(crate::specs::Reading::enum_at))]
fn enum_at<'a>(sizes: &[u8], bytes: &'a [u8]) -> Result<(Carrier, &'a [u8]), FieldFault>
    ensures { IsRead (λ x. (x.0, x.1.now)) result (enum_at sizes.now bytes.now) }
{
    let (sort, rest) = u8_at(bytes)?;
    if (sort as usize) < sizes.len() && sizes[sort as usize] > 0 {
        let count = sizes[sort as usize];
        Ok((Carrier::Enum(Enumeration { sort, count }), rest))
    } else {
        Err(fault(ModuleRule::Limit, bytes))
    }
}

/// The carrier of the numbers from `low` to `high`.
fn range_of(low: i32, high: i32) -> Carrier
    requires { low ≤ℤ high }
    ensures { IsRange result low high }
{
    Carrier::Range(Range { low, high })
}

#[tactic(auto, using(crate::proofs::Carriers::ranges), unfolding(crate::specs::Reading::range_at))]
fn range_at(bytes: &[u8]) -> Result<(Carrier, &[u8]), FieldFault>
    ensures { IsRead (λ x. (x.0, x.1.now)) result (range_at bytes.now) }
{
    let (low, second) = i32_at(bytes)?;
    let (high, rest) = i32_at(second)?;
    if low <= high {
        Ok((range_of(low, high), rest))
    } else {
        Err(fault(ModuleRule::Limit, second))
    }
}

#[tactic(auto, unfolding(crate::specs::Reading::carrier_at))]
fn carrier_at<'a>(sizes: &[u8], bytes: &'a [u8]) -> Result<(Carrier, &'a [u8]), FieldFault>
    ensures { IsRead (λ x. (x.0, x.1.now)) result (carrier_at sizes.now bytes.now) }
{
    let (tag, rest) = between_at(0, 3, bytes)?;
    match tag {
        0 => Ok((Carrier::Bool, rest)),
        1 => enum_at(sizes, rest),
        _ => range_at(rest),
    }
}

fn items_at<'a>(
    alloc: Global,
    sizes: &[u8],
    count: u8,
    bytes: &'a [u8],
) -> Result<(Vec<Carrier>, &'a [u8]), ReadError>
    ensures { Gives (λ x. (x.0.items, x.1.now)) result
        (items_at (carrier_at sizes.now) count bytes.now) }
{
    let mut carriers = Vec::with_capacity(alloc, count as usize)?;
    let mut rest = bytes;
    for _ in 0..count {
        let (carrier, after) = carrier_at(sizes, rest)?;
        carriers.push(carrier)?;
        rest = after;
    }
    Ok((carriers, rest))
}

/// Carriers, fewer than `end`.
#[tactic(auto, unfolding(crate::specs::Reading::counted_at))]
pub(crate) fn carriers_at<'a>(
    alloc: Global,
    sizes: &[u8],
    end: usize,
    bytes: &'a [u8],
) -> Result<(Vec<Carrier>, &'a [u8]), ReadError>
    ensures { Gives (λ x. (x.0.items, x.1.now)) result
        (counted_at 0 end (carrier_at sizes.now) bytes.now) }
{
    let (count, rest) = between_at(0, end, bytes)?;
    items_at(alloc, sizes, count, rest)
}
