//! Numbers, and where a fault stands.
ghost use Rattle.std.specs.Prelude.{◌≡◌, length};
ghost use Rattle.std.specs.Int.{w16, w32, w64};
ghost use Rattle.pb_bytecode.specs.Reading.{IsRead, bounds_at, between_at, byte_at, number_at};
ghost use Rattle.pb_bytecode.specs.Reading.{signed_at, truncated};

use crate::fault::{FieldFault, ModuleRule};

/// A fault at the beginning of a field, `field` being the bytes from there on.
pub(crate) fn fault(rule: ModuleRule, field: &[u8]) -> FieldFault
    ensures { result ≡ record { rule = rule; left = length field.now } }
{
    FieldFault {
        rule,
        left: field.len(),
    }
}

/// The input ends inside a field (B03).
pub(crate) fn truncated() -> FieldFault
    ensures { result ≡ truncated }
{
    FieldFault {
        rule: ModuleRule::Truncated,
        left: 0,
    }
}

pub(crate) fn u8_at(bytes: &[u8]) -> Result<(u8, &[u8]), FieldFault>
    ensures { IsRead (λ x. (x.0, x.1.now)) result (byte_at bytes.now) }
{
    match bytes {
        [] => Err(truncated()),
        [byte, rest @ ..] => Ok((*byte, rest)),
    }
}

pub(crate) fn u16_at(bytes: &[u8]) -> Result<(u16, &[u8]), FieldFault>
    ensures { IsRead (λ x. (x.0, x.1.now)) result (number_at w16 bytes.now) }
{
    if bytes.len() < 2 {
        return Err(truncated());
    }
    let (front, rest) = bytes.split_at(2);
    let number = u16::from_le_bytes([front[0], front[1]]);
    Ok((number, rest))
}

pub(crate) fn u32_at(bytes: &[u8]) -> Result<(u32, &[u8]), FieldFault>
    ensures { IsRead (λ x. (x.0, x.1.now)) result (number_at w32 bytes.now) }
{
    if bytes.len() < 4 {
        return Err(truncated());
    }
    let (front, rest) = bytes.split_at(4);
    let number = u32::from_le_bytes([front[0], front[1], front[2], front[3]]);
    Ok((number, rest))
}

fn u64_at(bytes: &[u8]) -> Result<(u64, &[u8]), FieldFault>
    ensures { IsRead (λ x. (x.0, x.1.now)) result (number_at w64 bytes.now) }
{
    if bytes.len() < 8 {
        return Err(truncated());
    }
    let (front, rest) = bytes.split_at(8);
    let number = u64::from_le_bytes([
        front[0], front[1], front[2], front[3], front[4], front[5], front[6], front[7],
    ]);
    Ok((number, rest))
}

#[tactic(auto, unfolding(crate::specs::Reading::signed_at))]
pub(crate) fn i32_at(bytes: &[u8]) -> Result<(i32, &[u8]), FieldFault>
    ensures { IsRead (λ x. (x.0, x.1.now)) result (signed_at w32 bytes.now) }
{
    let (number, rest) = u32_at(bytes)?;
    Ok((number.cast_signed(), rest))
}

#[tactic(auto, unfolding(crate::specs::Reading::signed_at))]
pub(crate) fn i64_at(bytes: &[u8]) -> Result<(i64, &[u8]), FieldFault>
    ensures { IsRead (λ x. (x.0, x.1.now)) result (signed_at w64 bytes.now) }
{
    let (number, rest) = u64_at(bytes)?;
    Ok((number.cast_signed(), rest))
}

/// A byte from `low` on, and below `end`; else B05.
#[tactic(auto, unfolding(crate::specs::Reading::between_at))]
pub(crate) fn between_at(low: usize, end: usize, bytes: &[u8]) -> Result<(u8, &[u8]), FieldFault>
    ensures { IsRead (λ x. (x.0, x.1.now)) result (between_at low end bytes.now) }
{
    let (byte, rest) = u8_at(bytes)?;
    if low <= byte as usize && (byte as usize) < end {
        Ok((byte, rest))
    } else {
        Err(fault(ModuleRule::Limit, bytes))
    }
}

/// Two bounds, the second not below the first.
#[tactic(auto, unfolding(crate::specs::Reading::bounds_at))]
pub(crate) fn bounds_at(bytes: &[u8]) -> Result<((i32, i32), &[u8]), FieldFault>
    ensures { IsRead (λ x. ((x.0.0, x.0.1), x.1.now)) result (bounds_at bytes.now) }
{
    let (low, second) = i32_at(bytes)?;
    let (high, rest) = i32_at(second)?;
    if low <= high {
        Ok(((low, high), rest))
    } else {
        Err(fault(ModuleRule::Limit, second))
    }
}
