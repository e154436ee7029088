//! Equations and the initial instance.
ghost use Rattle.std.specs.Prelude.{◌≡◌, ◌≤◌, map, nat_le, sum_by};
ghost use Rattle.pb_bytecode.specs.Limits.{instance_count};
ghost use Rattle.pb_bytecode.specs.Reading.{Gives, IsRead, counted_at, equation_at};
ghost use Rattle.pb_bytecode.specs.Reading.{equations_at, initial_at, items_at, parameters_at};
ghost use Rattle.pb_bytecode.specs.Reading.{sign_at, value_in_carrier, values_at};
ghost use Rattle.pb_bytecode.specs.Views.{equation_contents, initial_contents};

use super::carriers::carriers_at;
use super::instructions::code_at;
use super::names::name_at;
use super::numbers::{between_at, fault, i64_at, u8_at, u32_at};
use crate::equation::Equation;
use crate::fault::{FieldFault, ModuleRule, ReadError};
use crate::initial::Initial;
use crate::instances::has_few_instances;
use pb_base::{MAX_EQUATIONS, MAX_LOOP_SLOTS, MAX_PARAMETERS};
use pb_bytecode_program::Version;
use pb_fixpoint::Sign;
use pb_sorts::{Carrier, MAX_NUMBERS};
use std::alloc::Global;

/// 0 or 1; else B05.
#[tactic(auto, unfolding(crate::specs::Reading::sign_at))]
fn sign_at(bytes: &[u8]) -> Result<(Sign, &[u8]), FieldFault>
    ensures { IsRead (λ x. (x.0, x.1.now)) result (sign_at bytes.now) }
{
    let (code, rest) = u8_at(bytes)?;
    match code {
        0 => Ok((Sign::Mu, rest)),
        1 => Ok((Sign::Nu, rest)),
        _ => Err(fault(ModuleRule::Limit, bytes)),
    }
}

#[tactic(auto, unfolding(crate::specs::Reading::equation_at))]
fn equation_at<'a>(
    alloc: Global,
    version: Version,
    sizes: &[u8],
    bytes: &'a [u8],
) -> Result<(Equation, &'a [u8]), ReadError>
    ensures { Gives (λ x. (equation_contents x.0, x.1.now)) result
        (equation_at version sizes.now bytes.now) }
{
    let (sign, rest) = sign_at(bytes)?;
    let (name, rest) = name_at(alloc, rest)?;
    let (parameters, rest) = carriers_at(alloc, sizes, MAX_PARAMETERS + 1, rest)?;
    let (loops, rest) = carriers_at(alloc, sizes, MAX_LOOP_SLOTS + 1, rest)?;
    let (steps, rest) = u32_at(rest)?;
    let (tokens, rest) = u32_at(rest)?;
    let (code, rest) = code_at(alloc, version, sizes, rest)?;
    Ok((
        Equation {
            sign,
            name,
            parameters,
            loops,
            steps,
            tokens,
            code,
        },
        rest,
    ))
}

fn items_at<'a>(
    alloc: Global,
    version: Version,
    sizes: &[u8],
    count: u8,
    bytes: &'a [u8],
) -> Result<(Vec<Equation>, &'a [u8]), ReadError>
    ensures { Gives (λ x. (map equation_contents x.0.items, x.1.now)) result
        (items_at (equation_at version sizes.now) count bytes.now) }
{
    let mut equations = Vec::with_capacity(alloc, count as usize)?;
    let mut rest = bytes;
    for _ in 0..count {
        let (equation, after) = equation_at(alloc, version, sizes, rest)?;
        equations.push(equation)?;
        rest = after;
    }
    Ok((equations, rest))
}

/// The equations of a module, with no more instances than the limit (B05).
#[tactic(auto, unfolding(crate::specs::Reading::equations_at, crate::specs::Reading::counted_at))]
pub(crate) fn equations_at<'a>(
    alloc: Global,
    version: Version,
    sizes: &[u8],
    limit: u64,
    bytes: &'a [u8],
) -> Result<(Vec<Equation>, &'a [u8]), ReadError>
    requires { limit ≤ MAX_NUMBERS }
    ensures { Gives (λ x. (map equation_contents x.0.items, x.1.now)) result
        (equations_at limit version sizes.now bytes.now) }
{
    let (count, rest) = between_at(1, MAX_EQUATIONS + 1, bytes)?;
    let (equations, rest) = items_at(alloc, version, sizes, count, rest)?;
    if has_few_instances(&equations, limit) {
        Ok((equations, rest))
    } else {
        Err(ReadError::Refused(fault(ModuleRule::Limit, rest)))
    }
}

/// A value of the carrier; else B07.
#[tactic(auto, unfolding(crate::specs::Reading::value_in_carrier))]
fn value_at<'a>(carrier: &Carrier, bytes: &'a [u8]) -> Result<(i64, &'a [u8]), FieldFault>
    ensures { IsRead (λ x. (x.0, x.1.now)) result (value_in_carrier carrier.now bytes.now) }
{
    let (value, rest) = i64_at(bytes)?;
    if carrier.contains(value) {
        Ok((value, rest))
    } else {
        Err(fault(ModuleRule::Initial, bytes))
    }
}

/// A value of each carrier.
fn values_at<'a>(
    alloc: Global,
    carriers: &[Carrier],
    bytes: &'a [u8],
) -> Result<(Vec<i64>, &'a [u8]), ReadError>
    ensures { Gives (λ x. (x.0.items, x.1.now)) result (values_at carriers.now bytes.now) }
{
    let mut values = Vec::with_capacity(alloc, carriers.len())?;
    let mut rest = bytes;
    for carrier in carriers {
        let (value, after) = value_at(carrier, rest)?;
        values.push(value)?;
        rest = after;
    }
    Ok((values, rest))
}

/// An equation that is there, with a value for each parameter; else B07.
#[tactic(auto, unfolding(crate::specs::Reading::initial_at))]
pub(crate) fn initial_at<'a>(
    alloc: Global,
    equations: &[Equation],
    bytes: &'a [u8],
) -> Result<(Initial, &'a [u8]), ReadError>
    ensures { Gives (λ x. (initial_contents x.0, x.1.now)) result
        (initial_at (map equation_contents equations.now) bytes.now) }
{
    let (equation, rest) = u8_at(bytes)?;
    if equation as usize >= equations.len() {
        return Err(ReadError::Refused(fault(ModuleRule::Initial, bytes)));
    }
    let (values, rest) = values_at(alloc, &equations[equation as usize].parameters, rest)?;
    Ok((Initial { equation, values }, rest))
}
