//! Reading modules.
ghost use Rattle.std.specs.Prelude.{◌≡◌, ◌≤◌, ◌+◌, length, true, Ok, Err, IfOk, MatchResult};
ghost use Rattle.pb_base.specs.OrMemory.{IfRefused};
ghost use Rattle.pb_bytecode.specs.Contents.{Contents};
ghost use Rattle.pb_sorts.specs.Counting.{instance_limit};
ghost use Rattle.pb_sorts.specs.declared.counting.Counting.TheVariants.{Declared};
ghost use Rattle.pb_bytecode.specs.Decoded.{IsFirstFieldFault, IsFirstFieldFaultBy, IsModuleOf};
ghost use Rattle.pb_bytecode.specs.Decoded.{module_contents};
ghost use Rattle.pb_bytecode.specs.Limits.{fits, instance_count};
ghost use Rattle.pb_bytecode.specs.Reading.{Gives, IsRead, all_of, mark_at, version_at};
ghost use Rattle.pb_bytecode.specs.Spelling.{spelling};
ghost use Rattle.pb_bytecode.specs.Views.{contents_of};

use crate::equation::Equation;
use crate::fault::{FieldFault, ModuleError, ModuleFault, ModuleRule, ReadError};
use crate::initial::Initial;
use crate::module::Module;
use crate::reading::{equations_at, fault, initial_at, sizes_of, sorts_at, truncated, u8_at};
use crate::sort::Sort;
use pb_bytecode_program::Version;
use pb_sorts::Counting;
use std::alloc::Global;

/// The first bytes of a module.
pub(crate) const MARK: [u8; 4] = *b"PBES";

/// The bytes behind the mark; B01 at the first byte that differs from it.
#[tactic(auto, unfolding(crate::specs::Reading::mark_at))]
fn mark_at(bytes: &[u8]) -> Result<&[u8], FieldFault>
    ensures { IsRead (λ x. (tt, x.now)) result (mark_at bytes.now) }
{
    match bytes {
        [b'P', b'B', b'E', b'S', rest @ ..] => Ok(rest),
        [b'P', b'B', b'E', _, ..] => Err(fault(ModuleRule::Mark, &bytes[3..])),
        [b'P', b'B', _, _, ..] => Err(fault(ModuleRule::Mark, &bytes[2..])),
        [b'P', _, _, _, ..] => Err(fault(ModuleRule::Mark, &bytes[1..])),
        [_, _, _, _, ..] => Err(fault(ModuleRule::Mark, bytes)),
        _ => Err(truncated()),
    }
}

/// Version 1 or 2; else B02.
#[tactic(auto, unfolding(crate::specs::Reading::version_at))]
fn version_at(bytes: &[u8]) -> Result<(Version, &[u8]), FieldFault>
    ensures { IsRead (λ x. (x.0, x.1.now)) result (version_at bytes.now) }
{
    let (number, rest) = u8_at(bytes)?;
    match number {
        1 => Ok((Version::One, rest)),
        2 => Ok((Version::Two, rest)),
        _ => Err(fault(ModuleRule::Version, bytes)),
    }
}

/// The fields of a module with no more instances than are allowed, all of the bytes; where some
/// stand behind it, B06.
#[tactic(auto, unfolding(crate::specs::Reading::all_of, crate::specs::Reading::contents_at))]
fn fields(
    alloc: Global,
    bytes: &[u8],
    counting: Counting,
) -> Result<(Version, Vec<Sort>, Vec<Equation>, Initial), ReadError>
    ensures { Gives (λ x. contents_of x.0 x.1.items x.2.items x.3) result
        (all_of (instance_limit counting) bytes.now) }
{
    let rest = mark_at(bytes)?;
    let (version, rest) = version_at(rest)?;
    let (sorts, rest) = sorts_at(alloc, rest)?;
    let sizes = sizes_of(alloc, &sorts)?;
    let (equations, rest) = equations_at(alloc, version, &sizes, counting.limit(), rest)?;
    let (initial, rest) = initial_at(alloc, &equations, rest)?;
    if rest.is_empty() {
        Ok((version, sorts, equations, initial))
    } else {
        Err(ReadError::Refused(fault(ModuleRule::Trailing, rest)))
    }
}

/// The module that the bytes spell, all of the bytes, where the instances that are declared count.
///
/// # Errors
/// `Memory` where memory ran out; else the first fault from the left: B05 behind the equations
/// where they have more than `MAX_INSTANCES` instances.
pub fn decode(alloc: Global, bytes: &[u8]) -> Result<Module, ModuleError>
    // What is read is spelled so.
    ensures spelled { IfOk result (λ m. bytes.now ≡ spelling (module_contents m)) }
    // It has no more instances than may be declared.
    ensures few { IfOk result (λ m. instance_count (module_contents m).equations
        ≤ instance_limit Declared) }
    // What is spelled so, with no more instances, is read, unless memory runs out.
    ensures read { (m : Contents) → fits m ≡ true
        → instance_count m.equations ≤ instance_limit Declared → bytes.now ≡ spelling m
        → IsModuleOf m result }
    // Which fault it is, and where it stands.
    ensures fault { IfRefused result (IsFirstFieldFault bytes.now) }
{
    decode_counting(alloc, bytes, Counting::Declared)
}

/// The module that the bytes spell, all of the bytes, by which instances count.
///
/// # Errors
/// `Memory` where memory ran out; else the first fault from the left: B05 behind the equations
/// where they have more than `counting.limit()` instances.
pub fn decode_counting(
    alloc: Global,
    bytes: &[u8],
    counting: Counting,
) -> Result<Module, ModuleError>
    // What is read is spelled so.
    ensures spelled { IfOk result (λ m. bytes.now ≡ spelling (module_contents m)) }
    // It has no more instances than may be declared.
    ensures few { IfOk result (λ m. instance_count (module_contents m).equations
        ≤ instance_limit counting) }
    // What is spelled so, with no more instances, is read, unless memory runs out.
    ensures read { (m : Contents) → fits m ≡ true
        → instance_count m.equations ≤ instance_limit counting → bytes.now ≡ spelling m
        → IsModuleOf m result }
    // Which fault it is, and where it stands.
    ensures fault { IfRefused result (IsFirstFieldFaultBy counting bytes.now) }
{
    match fields(alloc, bytes, counting) {
        Ok((version, sorts, equations, initial)) => Ok(Module {
            version,
            sorts,
            equations,
            initial,
        }),
        Err(ReadError::Memory) => Err(ModuleError::Memory),
        Err(ReadError::Refused(fault)) => {
            Err(ModuleError::Refused(ModuleFault {
                rule: fault.rule,
                byte: bytes.len() - fault.left,
            }))
        }
    }
}
