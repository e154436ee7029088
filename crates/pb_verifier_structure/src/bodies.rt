//! Bodies of loops: which LOOP is the innermost one around each place. A body's LOOP stands in the
//! body around it, so that this table leads from a place outwards through all loops around it.

ghost use Rattle.std.specs.Prelude.{◌≡◌, ◌<◌, ◌≤◌, ◌↔◌, IfOk, IsTrue, OnErr, OnOk, List, Some};
ghost use Rattle.std.specs.Prelude.{Contains};
ghost use Rattle.std.specs.Prelude.{length, slice_get};
ghost use Rattle.pb_base.specs.declared.limits.TheConstants.{MAX_INSTRUCTIONS};
ghost use Rattle.pb_bytecode_program.specs.Accepted.{IsTarget, loop_slots};
ghost use Rattle.pb_bytecode_program.specs.Counts.{loops_around};
ghost use Rattle.pb_bytecode_program.specs.declared.instruction.Op.{Op};
ghost use Rattle.pb_bytecode_program.specs.declared.instruction.Op.TheVariants as op;
ghost use Rattle.pb_verifier_structure.specs.Nesting.{IsInnermost, IsNested, innermost_of};
ghost use Rattle.pb_base.specs.OrMemory.{OnRefused};

use crate::position_fault::{StructureError, broken};
use pb_base::MAX_LOOPS;
use pb_bytecode_program::Op;
use pb_verifier_states::AcceptanceRule;
use std::alloc::Global;

/// The place of the innermost LOOP around each place of the code.
#[derive(Drop)]
pub(crate) struct Bodies {
    innermost: Vec<Option<u16>>,
}

// Whether the instruction starts the loop of the slot.
fn is_loop_of(instruction: Op, slot: u8) -> bool
    ensures { IsTrue result ↔ (instruction ≡ op.Loop slot) }
{
    match instruction {
        Op::Loop { slot: other } => other == slot,
        _ => false,
    }
}

impl Bodies {
    /// The bodies of this code.
    ///
    /// # Errors
    /// `Refused` (V12) exactly where loops do not nest: for the first NEXT without a LOOP, END in a
    /// body or LOOP nested too deep, and else for the first LOOP without a NEXT.
    pub(crate) fn of(alloc: Global, code: &[Op]) -> Result<Bodies, StructureError>
        requires { length code.now ≤ MAX_INSTRUCTIONS }
        ensures innermost { IfOk result (λ bodies. IsInnermost code.now bodies.innermost.items) }
        ensures nested { OnOk result (IsNested code.now) }
        ensures refused { OnRefused result (IsNested code.now → ⊥) }
    {
        let mut innermost = Vec::with_capacity(alloc, code.len())?;
        let mut around: Option<u16> = None;
        let mut depth: usize = 0;
        let mut outermost = 0;
        for (place, instruction) in code.iter().enumerate() {
            innermost.push(around)?;
            match *instruction {
                Op::Loop { slot: _ } => {
                    if depth == MAX_LOOPS {
                        return Err(broken(AcceptanceRule::LoopStructure, place));
                    }
                    if depth == 0 {
                        outermost = place;
                    }
                    depth += 1;
                    around = Some(place as u16);
                }
                Op::Next => {
                    let Some(home) = around else {
                        return Err(broken(AcceptanceRule::LoopStructure, place));
                    };
                    depth -= 1;
                    around = innermost[home as usize];
                }
                Op::End => {
                    if around.is_some() {
                        return Err(broken(AcceptanceRule::LoopStructure, place));
                    }
                }
                _ => {}
            }
        }
        if around.is_some() {
            return Err(broken(AcceptanceRule::LoopStructure, outermost));
        }
        Ok(Bodies { innermost })
    }

    /// Whether a loop of the slot is around the place.
    pub(crate) fn is_around(&self, code: &[Op], place: usize, slot: u8) -> bool
        requires within { place < length code.now }
        requires table { IsInnermost code.now self.now.innermost.items }
        ensures { IsTrue result ↔ Contains (loop_slots code.now
            (loops_around code.now place)) slot }
    {
        let mut around = self.innermost[place];
        while let Some(home) = around {
            if is_loop_of(code[home as usize], slot) {
                return true;
            }
            around = self.innermost[home as usize];
        }
        false
    }

    /// Whether the place may be the target of a jump.
    ///
    /// # Errors
    /// The first rule that is broken: the target is behind the last instruction (V05), it isn't
    /// behind the jump (V06), or it is in another body (V07).
    pub(crate) fn check_target(&self, place: usize, target: u16) -> Result<(), AcceptanceRule>
        ensures ok { OnOk result ((code : List Op) → place < length code
            → IsInnermost code self.now.innermost.items → IsTarget code place target) }
        ensures err { OnErr result ((code : List Op) → IsInnermost code self.now.innermost.items
            → IsTarget code place target → ⊥) }
    {
        let target = target as usize;
        if target >= self.innermost.len() {
            return Err(AcceptanceRule::TargetOutside);
        }
        if target <= place {
            return Err(AcceptanceRule::TargetNotLater);
        }
        if self.innermost[target] != self.innermost[place] {
            return Err(AcceptanceRule::TargetInOtherBody);
        }
        Ok(())
    }
}
