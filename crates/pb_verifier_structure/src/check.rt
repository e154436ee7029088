//! The rules by position: how loops nest, which places jumps lead to, and which slots and equations
//! instructions name.

ghost use Rattle.std.specs.Prelude.{◌≡◌, ◌<◌, ◌≤◌, ◌↔◌, IsSome, IsTrue, OnErr, OnOk, Some, length};
ghost use Rattle.std.specs.Prelude.{slice_get};
ghost use Rattle.pb_base.specs.declared.limits.TheConstants.{MAX_INSTRUCTIONS};
ghost use Rattle.pb_bytecode_program.specs.Accepted.{HasValidTarget, IsVisible, NamesInScope};
ghost use Rattle.pb_bytecode_program.specs.Machine.{Program, carrier_of};
ghost use Rattle.pb_bytecode_program.specs.declared.instruction.Op.TheVariants as op;
ghost use Rattle.pb_verifier_structure.specs.Nesting.{IsInnermost, IsNested};
ghost use Rattle.pb_base.specs.OrMemory.{OnRefused};
ghost use Rattle.pb_verifier_structure.specs.Structure.{IsStructured};
ghost use Rattle.pb_verifier_structure.specs.Views.{IsProgramOf};

use crate::bodies::Bodies;
use crate::equation_code::EquationCode;
use crate::position_fault::{StructureError, broken};
use pb_bytecode_program::Op;
use pb_verifier_states::AcceptanceRule;
use std::alloc::Global;

fn is_loop_slot(code: &EquationCode, slot: u8) -> bool
    ensures { (p : Program) → IsProgramOf p code.now → IsTrue result ↔ IsSome (carrier_of p slot) }
{
    let slot = slot as usize;
    let parameters = code.parameters.len();
    slot >= parameters && slot - parameters < code.loops.len()
}

// A slot that is read at the place is a parameter's or that of a loop around.
fn check_slot(
    code: &EquationCode,
    bodies: &Bodies,
    place: usize,
    slot: u8,
) -> Result<(), AcceptanceRule>
    requires within { place < length code.now.instructions.now }
    requires table { IsInnermost code.now.instructions.now bodies.now.innermost.items }
    ensures ok { OnOk result ((p : Program) → IsProgramOf p code.now → IsVisible p place slot) }
    ensures err { OnErr result ((p : Program) → IsProgramOf p code.now → IsVisible p place slot
        → ⊥) }
{
    if (slot as usize) < code.parameters.len() {
        return Ok(());
    }
    if bodies.is_around(code.instructions, place, slot) {
        return Ok(());
    }
    Err(AcceptanceRule::UnknownName)
}

// A loop at the place has a loop slot that no loop around has.
fn check_loop(
    code: &EquationCode,
    bodies: &Bodies,
    place: usize,
    slot: u8,
) -> Result<(), AcceptanceRule>
    requires here { slice_get code.now.instructions.now place ≡ Some (op.Loop slot) }
    requires table { IsInnermost code.now.instructions.now bodies.now.innermost.items }
    requires nested { IsNested code.now.instructions.now }
    ensures ok { OnOk result ((p : Program) → IsProgramOf p code.now
        → NamesInScope p place (op.Loop slot)) }
    ensures err { OnErr result ((p : Program) → IsProgramOf p code.now
        → NamesInScope p place (op.Loop slot) → ⊥) }
{
    if !is_loop_slot(code, slot) {
        return Err(AcceptanceRule::UnknownName);
    }
    if bodies.is_around(code.instructions, place, slot) {
        return Err(AcceptanceRule::UnknownName);
    }
    Ok(())
}

// An equation that is called is there.
fn check_callee(code: &EquationCode, equation: u8) -> Result<(), AcceptanceRule>
    ensures ok { OnOk result (equation < code.now.equations) }
    ensures err { OnErr result (equation < code.now.equations → ⊥) }
{
    if (equation as usize) < code.equations {
        Ok(())
    } else {
        Err(AcceptanceRule::UnknownName)
    }
}

// The rules by position of the instruction at a place, where loops nest.
fn check_instruction(
    code: &EquationCode,
    bodies: &Bodies,
    place: usize,
    instruction: Op,
) -> Result<(), AcceptanceRule>
    requires here { slice_get code.now.instructions.now place ≡ Some instruction }
    requires table { IsInnermost code.now.instructions.now bodies.now.innermost.items }
    requires nested { IsNested code.now.instructions.now }
    ensures ok { OnOk result ((p : Program) → IsProgramOf p code.now
        → HasValidTarget p place instruction × NamesInScope p place instruction) }
    ensures err { OnErr result ((p : Program) → IsProgramOf p code.now
        → HasValidTarget p place instruction → NamesInScope p place instruction → ⊥) }
{
    match instruction {
        Op::Get { slot } => check_slot(code, bodies, place, slot)?,
        Op::Loop { slot } => check_loop(code, bodies, place, slot)?,
        Op::Call { equation } => check_callee(code, equation)?,
        Op::SlotInRange {
            slot,
            low: _,
            high: _,
            target,
        } => {
            check_slot(code, bodies, place, slot)?;
            bodies.check_target(place, target)?;
        }
        Op::InRange {
            low: _,
            high: _,
            target,
        } => bodies.check_target(place, target)?,
        Op::JumpIf {
            condition: _,
            target,
        } => bodies.check_target(place, target)?,
        Op::Jump { target } => bodies.check_target(place, target)?,
        _ => {}
    }
    Ok(())
}

/// Tests the rules by position, which hold of each instruction whether it is reached or not. Memory
/// is taken in proportion to the code, and given back.
///
/// # Errors
/// `Refused` exactly where a rule is broken. It names first, in the order of places, what breaks
/// the nesting of loops (V12): NEXT without a LOOP, END in a body, a LOOP inside `MAX_LOOPS`
/// others; then the first LOOP without a NEXT. Where loops nest, it names the first place that
/// breaks another rule, and there a name (V09) before a target (V05, V06, V07). `Memory` where
/// memory is refused.
pub fn check_structure(alloc: Global, code: &EquationCode) -> Result<(), StructureError>
    requires { length code.now.instructions.now ≤ MAX_INSTRUCTIONS }
    ensures ok { OnOk result ((p : Program) → IsProgramOf p code.now → IsStructured p) }
    ensures refused { OnRefused result ((p : Program) → IsProgramOf p code.now → IsStructured p
        → ⊥) }
{
    let bodies = Bodies::of(alloc, code.instructions)?;
    for (place, instruction) in code.instructions.iter().enumerate() {
        if let Err(rule) = check_instruction(code, &bodies, place, *instruction) {
            return Err(broken(rule, place));
        }
    }
    Ok(())
}
