//! Instructions.
ghost use Rattle.std.specs.Prelude.{◌≡◌};
ghost use Rattle.pb_bytecode.specs.Reading.{Gives, IsRead, code_at, enumerator_at, items_at};
ghost use Rattle.pb_bytecode.specs.Reading.{op_at, operands_at, slot_test_at, test_at};

use super::numbers::{between_at, bounds_at, fault, i64_at, u8_at, u16_at};
use crate::fault::{FieldFault, ModuleRule, ReadError};
use crate::format::{Format, format_of};
use pb_bytecode_program::{Op, Version};
use std::alloc::Global;

/// A sort and the place of one of its enumerators.
#[tactic(auto, unfolding(crate::specs::Reading::enumerator_at))]
fn enumerator_at<'a>(sizes: &[u8], bytes: &'a [u8]) -> Result<((u8, u8), &'a [u8]), FieldFault>
    ensures { IsRead (λ x. ((x.0.0, x.0.1), x.1.now)) result (enumerator_at sizes.now bytes.now) }
{
    let (sort, rest) = between_at(0, sizes.len(), bytes)?;
    let count = if (sort as usize) < sizes.len() {
        sizes[sort as usize]
    } else {
        0
    };
    let (index, rest) = between_at(0, count as usize, rest)?;
    Ok(((sort, index), rest))
}

/// Two bounds and a target.
#[tactic(auto, unfolding(crate::specs::Reading::test_at))]
fn test_at(bytes: &[u8]) -> Result<((i32, i32, u16), &[u8]), FieldFault>
    ensures { IsRead (λ x. (((x.0.0, x.0.1), x.0.2), x.1.now)) result (test_at bytes.now) }
{
    let ((low, high), rest) = bounds_at(bytes)?;
    let (target, rest) = u16_at(rest)?;
    Ok(((low, high, target), rest))
}

/// The instruction whose code has this format.
#[tactic(auto, unfolding(crate::specs::Reading::slot_test_at))]
fn operands_at<'a>(
    sizes: &[u8],
    format: Format,
    bytes: &'a [u8],
) -> Result<(Op, &'a [u8]), FieldFault>
    ensures { IsRead (λ x. (x.0, x.1.now)) result (operands_at sizes.now format bytes.now) }
{
    match format {
        Format::Plain(op) => Ok((op, bytes)),
        Format::Int => {
            let (number, rest) = i64_at(bytes)?;
            Ok((Op::PushInt(number), rest))
        }
        Format::Bool => {
            let (truth, rest) = between_at(0, 2, bytes)?;
            Ok((Op::PushBool(truth == 1), rest))
        }
        Format::Enumerator => {
            let ((sort, index), rest) = enumerator_at(sizes, bytes)?;
            Ok((Op::PushEnum { sort, index }, rest))
        }
        Format::Get => {
            let (slot, rest) = u8_at(bytes)?;
            Ok((Op::Get { slot }, rest))
        }
        Format::Jump => {
            let (target, rest) = u16_at(bytes)?;
            Ok((Op::Jump { target }, rest))
        }
        Format::JumpIf(condition) => {
            let (target, rest) = u16_at(bytes)?;
            Ok((Op::JumpIf { condition, target }, rest))
        }
        Format::InRange => {
            let ((low, high, target), rest) = test_at(bytes)?;
            Ok((Op::InRange { low, high, target }, rest))
        }
        Format::Loop => {
            let (slot, rest) = u8_at(bytes)?;
            Ok((Op::Loop { slot }, rest))
        }
        Format::Call => {
            let (equation, rest) = u8_at(bytes)?;
            Ok((Op::Call { equation }, rest))
        }
        Format::SlotInRange => {
            let (slot, rest) = u8_at(bytes)?;
            let ((low, high, target), rest) = test_at(rest)?;
            Ok((
                Op::SlotInRange {
                    slot,
                    low,
                    high,
                    target,
                },
                rest,
            ))
        }
    }
}

/// An instruction whose code the version has; else B04.
#[tactic(auto, unfolding(crate::specs::Reading::op_at))]
fn op_at<'a>(version: Version, sizes: &[u8], bytes: &'a [u8]) -> Result<(Op, &'a [u8]), FieldFault>
    ensures { IsRead (λ x. (x.0, x.1.now)) result (op_at version sizes.now bytes.now) }
{
    let (code, rest) = u8_at(bytes)?;
    match format_of(version, code) {
        Some(format) => operands_at(sizes, format, rest),
        None => Err(fault(ModuleRule::UnknownOp, bytes)),
    }
}

fn ops_at<'a>(
    alloc: Global,
    version: Version,
    sizes: &[u8],
    count: u16,
    bytes: &'a [u8],
) -> Result<(Vec<Op>, &'a [u8]), ReadError>
    ensures { Gives (λ x. (x.0.items, x.1.now)) result
        (items_at (op_at version sizes.now) count bytes.now) }
{
    // Each instruction takes a byte at least.
    let mut code = Vec::with_capacity(alloc, bytes.len().min(count as usize))?;
    let mut rest = bytes;
    for _ in 0..count {
        let (op, after) = op_at(version, sizes, rest)?;
        code.push(op)?;
        rest = after;
    }
    Ok((code, rest))
}

/// The instructions of an equation, at least one; else B05.
#[tactic(auto, unfolding(crate::specs::Reading::code_at))]
pub(crate) fn code_at<'a>(
    alloc: Global,
    version: Version,
    sizes: &[u8],
    bytes: &'a [u8],
) -> Result<(Vec<Op>, &'a [u8]), ReadError>
    ensures { Gives (λ x. (x.0.items, x.1.now)) result (code_at version sizes.now bytes.now) }
{
    let (count, rest) = u16_at(bytes)?;
    if count == 0 {
        return Err(ReadError::Refused(fault(ModuleRule::Limit, bytes)));
    }
    ops_at(alloc, version, sizes, count, rest)
}
